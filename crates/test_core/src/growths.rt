//! Tests of hostile use: growths that are refused, scenarios that are damaged, writers and readers that fail.
mod growths;
mod rows;
mod shown;

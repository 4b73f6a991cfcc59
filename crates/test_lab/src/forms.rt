//! Tests of the forms for programs: the list of the calls, what is found in texts, and how machines are, as JSON.
mod json;

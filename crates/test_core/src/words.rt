//! Tests of the words: the gate's and the mutex's, as seats step on them.
mod gate;
mod moving;
mod mutex;

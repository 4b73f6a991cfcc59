//! Tests of the pipeline and of the kernel, as a caller uses them.
mod fires;
mod handlers;
mod kernels;
mod likeness;
mod most_plays;
mod pipelines;
mod resets;
mod rows;

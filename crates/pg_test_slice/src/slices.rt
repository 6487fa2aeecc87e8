//! Tests of slices: runs of small programs along their schedules, the decisions that these need, by both forms of the slice,
//! which inputs they admit, and what the guided runs on other inputs do.

mod tests;

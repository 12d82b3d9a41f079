// The mean of the marked legs: what a call answers, and what its walk over the slots counts. Types, and no code.
use record::Answer;

// What the call answers; an accepted answer's second number is how many slots are not set. The mean is None where no
// leg is marked.
#[derive(Clone, Copy)]
pub struct Marks {
    pub answer: Answer,
    pub mean: Option<f64>,
}

// What the walk over the slots has counted: the sum of the marks, how many there are, and the slots not set.
#[derive(Clone, Copy)]
pub struct Tally {
    pub sum: u32,
    pub marked: u32,
    pub unset: u32,
}

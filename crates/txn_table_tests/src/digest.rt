//! Answers in one number.

/// How many lists were tried, what was taken of them, and a digest of the answers.
#[derive(Drop)]
pub struct Counts {
    pub tried: u64,
    pub taken: u64,
    pub answers: u64,
}

/// The number with one answer more.
pub fn mixed(answers: u64, answer: u64) -> u64 {
    answers
        .wrapping_mul(6_364_136_223_846_793_005)
        .wrapping_add(answer)
        .wrapping_add(1_442_695_040_888_963_407)
}

// What a verdict call is asked.
#![tactic(auto)]

// The rows and the costs of the jobs, the timed-out job T, and the allowance of rounds. The lists are of numbers, or of their bytes.
#[derive(Clone, Copy)]
pub struct Call<'a, N> {
    pub rows: &'a [N],
    pub costs: &'a [N],
    pub t: usize,
    pub allowance: u32,
}

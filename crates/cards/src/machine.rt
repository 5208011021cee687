// An array with the memory that it is lent. Refusals are told by their numbers.
use array::run;
use memory::same_words;
use starting::start;

// A list of jobs and the order of the array that runs it.
#[derive(Clone, Copy)]
pub struct Jobs<'a> {
    pub algebras: &'a [u16],
    pub order: usize,
    pub sizes: &'a [u16],
    pub weights: &'a [u16],
}

#[derive(Drop)]
pub struct Machine<'a> {
    pub state: &'a mut [u16],
    pub scratch: &'a mut [u16],
    pub results: &'a mut [u16],
}

// What a start answers.
pub fn starts(jobs: &Jobs, state: &mut [u16]) -> Result<(), u32> {
    start(jobs.algebras, jobs.order, jobs.sizes, jobs.weights, state).map_err(u32::from)
}

impl Machine<'_> {
    pub fn start(&mut self, jobs: &Jobs) -> Result<(), u32> {
        starts(jobs, self.state)
    }

    // The ticks that a run makes, lent a scratch that holds other words.
    pub fn run(&mut self, jobs: &Jobs, allowance: u16) -> Result<u16, u32> {
        self.scratch.fill(9);
        let answer = run(
            self.state,
            jobs.algebras,
            jobs.sizes,
            jobs.weights,
            allowance,
            self.scratch,
            self.results,
        );
        answer.map_err(u32::from)
    }

    // A run that makes the given ticks and leaves the given results.
    pub fn makes(&mut self, jobs: &Jobs, allowance: u16, ticks: u16, results: &[u16]) -> bool {
        self.run(jobs, allowance) == Ok(ticks) && same_words(self.results, results)
    }
}

// The first four words of a state. The second one is 0.

#![tactic(auto)]

ghost use Rattle.std.specs.Prelude.{◌≡◌, ◌+◌, ◌-◌, ◌≤◌, length};
ghost use Rattle.job_list.specs.Fits.{Ranged};
ghost use Rattle.systolic.specs.State.{total};
ghost use Rattle.state_header.specs.inner.Header.{headed, Told};

use refusals::Reason;

#[derive(Clone, Copy)]
pub struct Header {
    pub order: u16,
    pub count: u16,
    pub tick: u16,
}

impl Header {
    // The ticks of the whole list.
    pub fn total(self) -> u16
        requires { Ranged self.order self.count }
        ensures whole { result ≡ total self.order self.count }
        ensures most { result ≤ 2110 }
    {
        4 * self.order * self.count + 2 * self.order - 2
    }

    pub fn ticks_left(self) -> u16
        requires ranged { Ranged self.order self.count }
        requires tick_bound { self.tick ≤ total self.order self.count }
        ensures { result ≡ total self.order self.count - self.tick }
    {
        let tick = self.tick;
        self.total() - tick
    }

    // The header once `made` ticks more are made.
    pub fn next_tick(self, made: u16) -> Header
        requires { self.tick + made ≤ 2110 }
        ensures { result ≡ record { order = self.order; count = self.count; tick = self.tick + made } }
    {
        Header {
            tick: self.tick + made,
            ..self
        }
    }
}

// A header's words at the front of a state.
pub fn store_header(header: Header, state: &mut [u16])
    requires { 4 ≤ length state.old }
    ensures { state.new ≡ headed header state.old }
{
    state[0] = header.order;
    state[1] = 0;
    state[2] = header.count;
    state[3] = header.tick;
}

// A state's header, or that it is no state: test 10.
pub fn read_header(state: &[u16]) -> Result<Header, Reason>
    ensures { Told result state.now }
{
    if state.len() < 4 {
        return Err(Reason::StateUnfit);
    }
    let header = Header {
        order: state[0],
        count: state[2],
        tick: state[3],
    };
    if !(1..=32).contains(&header.order) {
        return Err(Reason::StateUnfit);
    }
    if state[1] != 0 {
        return Err(Reason::StateUnfit);
    }
    if !(1..=16).contains(&header.count) {
        return Err(Reason::StateUnfit);
    }
    let order = usize::from(header.order);
    if state.len() != 4 + 3 * (order * order) {
        return Err(Reason::StateUnfit);
    }
    if header.total() < header.tick {
        return Err(Reason::StateUnfit);
    }
    Ok(header)
}

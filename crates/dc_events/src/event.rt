ghost use Rattle.std.specs.Prelude.{◌≡◌, ◌↔◌, IsTrue};
ghost use Rattle.dc_events.specs.Kinds.{IsNondeterministic, kind_of};

use dc_calls::Call;

/// What a guest does next.
#[derive(Clone, Copy, Debug, PartialEq, Eq)]
pub enum Next {
    /// An instruction that retires.
    Retire,
    /// A trap of that cause.
    Trap(u32),
    /// A call.
    Call(Call),
}

/// The kind of an event, as others see it.
#[derive(Clone, Copy, Debug, PartialEq, Eq)]
pub enum Kind {
    /// Nothing that others see.
    Internal,
    /// A reading of the clock.
    Clock,
    /// A random word.
    Random,
    /// A request for input, whatever it is answered.
    Input,
    /// A request for a message, whatever it is answered.
    Receive,
    /// Something that users see.
    Visible,
    /// A message to another guest.
    Send,
}

impl Next {
    /// Its kind.
    pub fn kind(&self) -> Kind
        ensures { result ≡ kind_of self.now }
    {
        match *self {
            Next::Retire => Kind::Internal,
            Next::Trap(_) => Kind::Visible,
            Next::Call(call) => call_kind(call),
        }
    }
}

/// The kind of a call.
fn call_kind(call: Call) -> Kind
    ensures { result ≡ kind_of (Next.Call call) }
{
    match call {
        Call::Exit(_) => Kind::Visible,
        Call::Output(_, _) => Kind::Visible,
        Call::Input(_, _) => Kind::Input,
        Call::Clock => Kind::Clock,
        Call::Random => Kind::Random,
        Call::Send(_, _, _) => Kind::Send,
        Call::Receive(_, _) => Kind::Receive,
        Call::Number => Kind::Internal,
        Call::BadArgument => Kind::Internal,
        Call::Unknown => Kind::Internal,
    }
}

impl Kind {
    /// Whether others could see another outcome of the same event: clock, random word, input and receive, whatever they answer.
    pub fn is_nondeterministic(self) -> bool
        ensures { IsTrue result ↔ IsNondeterministic self }
    {
        match self {
            Kind::Clock => true,
            Kind::Random => true,
            Kind::Input => true,
            Kind::Receive => true,
            Kind::Internal => false,
            Kind::Visible => false,
            Kind::Send => false,
        }
    }
}

use crate::holding::holds;
use dc_calls::Call;
use dc_events::{Kind, Next};
use std::test::Fail;

#[test]
fn each_event_has_its_kind() -> Result<(), Fail> {
    let rows = [
        (Next::Retire, Kind::Internal),
        (Next::Trap(0), Kind::Visible),
        (Next::Trap(7), Kind::Visible),
        (Next::Call(Call::Exit(0)), Kind::Visible),
        (Next::Call(Call::Output(512, 0)), Kind::Visible),
        (Next::Call(Call::Input(512, 64)), Kind::Input),
        (Next::Call(Call::Clock), Kind::Clock),
        (Next::Call(Call::Random), Kind::Random),
        (Next::Call(Call::Send(1, 512, 0)), Kind::Send),
        (Next::Call(Call::Receive(512, 64)), Kind::Receive),
        (Next::Call(Call::Number), Kind::Internal),
        (Next::Call(Call::BadArgument), Kind::Internal),
        (Next::Call(Call::Unknown), Kind::Internal),
    ];
    for (next, want) in rows {
        holds(next.kind() == want, "kind")?;
    }
    Ok(())
}

#[test]
fn four_kinds_are_nondeterministic() -> Result<(), Fail> {
    for kind in [Kind::Clock, Kind::Random, Kind::Input, Kind::Receive] {
        holds(kind.is_nondeterministic(), "nondeterministic")?;
    }
    for kind in [Kind::Internal, Kind::Visible, Kind::Send] {
        holds(!kind.is_nondeterministic(), "deterministic")?;
    }
    Ok(())
}

ghost use Rattle.std.specs.Prelude.{◌<◌};

use crate::holding::holds;
use dc_events::Kind::{self, Clock, Input, Internal, Random, Receive, Send, Visible};
use dc_protocols::Protocol::{
    Cand, CandLog, Cbndv2pc, Cbndv2pcCausal, Cbndvs, CbndvsLog, Cpv2pc, Cpvs,
};
use dc_protocols::{Protocol, Rule, Since, is_global, is_joint, rule};
use std::alloc::Global;
use std::test::Fail;

/// A row for each protocol and kind: where a commit comes before the event, where its answer is logged and where a commit comes
/// after it. Bit n of a mask, which is hexadecimal, is the outcome of the combination numbered n.
const TABLE: &str = "\
Cand Internal 0 0 ff00ff00
Cand Clock 0 0 ffffffff
Cand Random 0 0 ffffffff
Cand Input 0 0 ffffffff
Cand Receive 0 0 ffffffff
Cand Visible 0 0 ff00ff00
Cand Send 0 0 ff00ff00
CandLog Internal 0 0 ff00ff00
CandLog Clock 0 0 ffffffff
CandLog Random 0 0 ffffffff
CandLog Input f0f0 ffff ff000f00
CandLog Receive f0f0 ffff ff000f00
CandLog Visible 0 0 ff00ff00
CandLog Send 0 0 ff00ff00
Cpvs Internal 0 0 ff00ff00
Cpvs Clock 0 0 ff00ff00
Cpvs Random 0 0 ff00ff00
Cpvs Input 0 0 ff00ff00
Cpvs Receive 0 0 ff00ff00
Cpvs Visible ffffffff 0 0
Cpvs Send ffffffff 0 0
Cbndvs Internal 0 0 ff00ff00
Cbndvs Clock 0 0 ff00ff00
Cbndvs Random 0 0 ff00ff00
Cbndvs Input 0 0 ff00ff00
Cbndvs Receive 0 0 ff00ff00
Cbndvs Visible aaaaaaaa 0 55005500
Cbndvs Send aaaaaaaa 0 55005500
CbndvsLog Internal 0 0 ff00ff00
CbndvsLog Clock 0 0 ff00ff00
CbndvsLog Random 0 0 ff00ff00
CbndvsLog Input 5050 5555 ff00af00
CbndvsLog Receive 5050 5555 ff00af00
CbndvsLog Visible aaaaaaaa 0 55005500
CbndvsLog Send aaaaaaaa 0 55005500
Cpv2pc Internal 0 0 ff00ff00
Cpv2pc Clock 0 0 ff00ff00
Cpv2pc Random 0 0 ff00ff00
Cpv2pc Input 0 0 ff00ff00
Cpv2pc Receive 0 0 ff00ff00
Cpv2pc Visible ffffffff 0 0
Cpv2pc Send 0 0 ff00ff00
Cbndv2pc Internal 0 0 ff00ff00
Cbndv2pc Clock 0 0 ff00ff00
Cbndv2pc Random 0 0 ff00ff00
Cbndv2pc Input 0 0 ff00ff00
Cbndv2pc Receive 0 0 ff00ff00
Cbndv2pc Visible cccccccc 0 33003300
Cbndv2pc Send 0 0 ff00ff00
Cbndv2pcCausal Internal 0 0 ff00ff00
Cbndv2pcCausal Clock 0 0 ff00ff00
Cbndv2pcCausal Random 0 0 ff00ff00
Cbndv2pcCausal Input 0 0 ff00ff00
Cbndv2pcCausal Receive 0 0 ff00ff00
Cbndv2pcCausal Visible cccccccc 0 33003300
Cbndv2pcCausal Send 0 0 ff00ff00
";

const PROTOCOLS: [Protocol; 8] = [
    Cand,
    CandLog,
    Cpvs,
    Cbndvs,
    CbndvsLog,
    Cpv2pc,
    Cbndv2pc,
    Cbndv2pcCausal,
];

const KINDS: [Kind; 7] = [Internal, Clock, Random, Input, Receive, Visible, Send];

/// Five facts in a number below 32: unlogged counts 1, any 2, full 4, eighth 8 and replay 16.
fn combination(number: u32) -> Since {
    Since {
        unlogged: number & 1 != 0,
        any: number & 2 != 0,
        full: number & 4 != 0,
        eighth: number & 8 != 0,
        replay: number & 16 != 0,
    }
}

fn bit(is: bool, number: u32) -> u32
    requires { number < 32 }
{
    if is { 1 << number } else { 0 }
}

/// The three masks of a protocol and a kind.
fn masks_of(protocol: Protocol, kind: Kind) -> [u32; 3] {
    let mut masks = [0; 3];
    for number in 0..32u32 {
        let rule = rule(protocol, kind, &combination(number));
        masks[0] |= bit(rule.before, number);
        masks[1] |= bit(rule.log, number);
        masks[2] |= bit(rule.after, number);
    }
    masks
}

fn row_of(alloc: Global, protocol: Protocol, kind: Kind) -> Result<String, Fail> {
    let [before, log, after] = masks_of(protocol, kind);
    Ok(format!(in alloc; "{protocol:?} {kind:?} {before:x} {log:x} {after:x}")?)
}

fn is_in_table(row: &str) -> Result<(), Fail> {
    for line in TABLE.lines() {
        if line == row {
            return Ok(());
        }
    }
    Err(Fail::new(row))
}

#[test]
fn each_combination_is_as_in_the_table(rt: HostRuntime) -> Result<(), Fail> {
    for protocol in PROTOCOLS {
        for kind in KINDS {
            is_in_table(row_of(rt.alloc(), protocol, kind)?.as_str())?;
        }
    }
    Ok(())
}

#[test]
fn two_protocols_commit_globally() -> Result<(), Fail> {
    for protocol in [Cpv2pc, Cbndv2pc] {
        holds(is_global(protocol), "one that is global")?;
    }
    for protocol in [Cand, CandLog, Cpvs, Cbndvs, CbndvsLog, Cbndv2pcCausal] {
        holds(!is_global(protocol), "one that is not global")?;
    }
    for protocol in PROTOCOLS {
        let is = is_global(protocol) || protocol == Cbndv2pcCausal;
        holds(is_joint(protocol) == is, "whether all fall together")?;
    }
    Ok(())
}

fn is_rule(protocol: Protocol, kind: Kind, since: &Since, want: Rule) -> Result<(), Fail> {
    holds(rule(protocol, kind, since) == want, "the rule")
}

/// An event that finds nothing.
const NOTHING: Since = Since {
    unlogged: false,
    any: false,
    full: false,
    eighth: false,
    replay: false,
};

/// A rule that asks for nothing.
const NEITHER: Rule = Rule {
    before: false,
    log: false,
    after: false,
};

/// A commit before the event.
const BEFORE: Rule = Rule {
    before: true,
    ..NEITHER
};

/// A commit after the event.
const AFTER: Rule = Rule {
    after: true,
    ..NEITHER
};

/// A record in the log.
const LOG: Rule = Rule {
    log: true,
    ..NEITHER
};

/// A record in the log, and a commit before the event that makes room for it.
const ROOM_AND_LOG: Rule = Rule {
    before: true,
    ..LOG
};

#[test]
fn a_commit_follows_a_nondeterministic_event() -> Result<(), Fail> {
    let unlogged = Since {
        unlogged: true,
        ..NOTHING
    };
    is_rule(Cand, Clock, &NOTHING, AFTER)?;
    is_rule(Cand, Receive, &NOTHING, AFTER)?;
    is_rule(Cand, Visible, &unlogged, NEITHER)?;
    is_rule(CandLog, Clock, &NOTHING, AFTER)
}

#[test]
fn an_answer_is_logged_in_place_of_a_commit() -> Result<(), Fail> {
    let full = Since {
        full: true,
        ..NOTHING
    };
    let unlogged = Since {
        unlogged: true,
        ..full
    };
    let replay = Since {
        replay: true,
        ..full
    };
    is_rule(CandLog, Input, &NOTHING, LOG)?;
    is_rule(CandLog, Input, &full, ROOM_AND_LOG)?;
    is_rule(CandLog, Input, &replay, NEITHER)?;
    is_rule(CbndvsLog, Input, &full, ROOM_AND_LOG)?;
    is_rule(CbndvsLog, Input, &unlogged, NEITHER)?;
    is_rule(CbndvsLog, Input, &replay, NEITHER)
}

#[test]
fn a_commit_comes_before_what_others_see() -> Result<(), Fail> {
    let other = Since {
        any: true,
        ..NOTHING
    };
    let unlogged = Since {
        unlogged: true,
        ..other
    };
    is_rule(Cpvs, Send, &NOTHING, BEFORE)?;
    is_rule(Cbndvs, Visible, &unlogged, BEFORE)?;
    is_rule(Cbndvs, Visible, &other, NEITHER)?;
    is_rule(Cpv2pc, Visible, &NOTHING, BEFORE)?;
    is_rule(Cpv2pc, Send, &unlogged, NEITHER)?;
    is_rule(Cbndv2pc, Visible, &other, BEFORE)?;
    is_rule(Cbndv2pc, Visible, &NOTHING, NEITHER)
}

#[test]
fn the_eighth_receipt_is_committed_once() -> Result<(), Fail> {
    let eighth = Since {
        eighth: true,
        ..NOTHING
    };
    let unlogged = Since {
        unlogged: true,
        ..eighth
    };
    let full = Since {
        full: true,
        ..eighth
    };
    let replay = Since {
        replay: true,
        ..full
    };
    is_rule(Cbndvs, Receive, &unlogged, AFTER)?;
    is_rule(CandLog, Receive, &full, ROOM_AND_LOG)?;
    is_rule(CandLog, Receive, &replay, AFTER)
}

//! The texts of answers and plays that no call that is built gives, and of each refusal.
use crate::rows::cases;
use evl_base::{Call, Refusal, SemId, ThreadId};
use evl_scenario::{EntryNumber, Step, StepAnswer, StepLine};
use std::alloc::{AllocError, Global};

// Whether the refusal has this name, by itself and in the line of an entry that was refused so.
fn is_named(alloc: Global, refusal: Refusal, name: &str) -> Result<bool, AllocError> {
    let step = Step {
        who: ThreadId(54321),
        call: Call::Peek { sem: SemId(9876) },
    };
    let text = step.to_string(alloc)?;
    let line = StepLine {
        number: EntryNumber(Some(1_000_000)),
        step: text.as_str(),
        answer: StepAnswer(Err(refusal)),
    };
    let line = line.to_string(alloc)?;
    let wanted = format!(in alloc; "1000000 T54321 peek sem=9876 -> {name}\n")?;
    let own = refusal.to_string(alloc)?;
    Ok(line.as_str() == wanted.as_str() && own.as_str() == name)
}

const RACED: Refusal = Refusal::Raced {
    first: 3,
    second: 4,
};

const NAMES: [(Refusal, &str); 15] = cases![
    Refusal::NoMemory => "NoMemory"; Refusal::HistoryFull => "HistoryFull"; Refusal::CoreBusy => "CoreBusy";
    Refusal::Unknown => "Unknown"; Refusal::Invalid => "Invalid"; Refusal::Again => "Again"; Refusal::Busy => "Busy";
    Refusal::NotOwner => "NotOwner"; Refusal::Deadlock => "Deadlock"; Refusal::Limit => "Limit";
    Refusal::Range => "Range"; Refusal::TooBig => "TooBig"; Refusal::WrongStage => "WrongStage";
    Refusal::HoldsStax => "HoldsStax"; RACED => "Raced";
];

#[test]
fn each_refusal_has_its_name(rt: HostRuntime) {
    for (refusal, name) in NAMES {
        assert!(rt; is_named(rt.alloc(), refusal, name) == Ok(true));
    }
}

//! A core with two workers over a fork whose first child hands a value to the second.
ghost use Rattle.std.specs.Prelude.{◌≡◌, IfOk, Some, pos};
ghost use Rattle.merc_value.specs.Value.{Int};
ghost use Rattle.merc_script.specs.Cells.{value_shown};
ghost use Rattle.merc_core.specs.WellFormed.{WellFormed};

use merc_base::{NoMemory, Sequence};
use merc_core::{Core, Event, NotNow};
use merc_script::{CellId, Fork, Item, Outcome, Script, ScriptCell};
use merc_value::{Block, Word};
use std::alloc::Global;
use std::test::Fail;

// The value of the cell.
fn seven(alloc: Global) -> Result<Block, NoMemory>
    ensures { IfOk result (λ block. value_shown (Some block) ≡ Some (Int (pos 7))) }
{
    let mut value = Block::new(alloc);
    value.add_root(Word::Int(7))?;
    Ok(value)
}

// The first child makes a step and signals, the second waits and makes a step.
fn handing_over(alloc: Global) -> Result<Script, NoMemory>
    ensures { IfOk result (λ script. WellFormed script) }
{
    let cell = CellId::new(5);
    let cells = vec![in alloc; ScriptCell::new(cell, 1, 2, Some(seven(alloc)?))]?;
    let fork = Fork {
        limit: 9,
        children: 2,
        cells: Sequence::from_vec(cells),
        moves: Sequence::new(alloc),
    };
    let items = vec![in alloc;
        Item::Fork(fork),
        Item::Tick,
        Item::Signal(cell),
        Item::End(Outcome::Ok(1)),
        Item::Wait(cell),
        Item::Tick,
        Item::End(Outcome::Ok(1)),
        Item::End(Outcome::Ok(2)),
    ]?;
    match Script::from_items(items) {
        Some(script) => Ok(script),
        None => Err(NoMemory),
    }
}

// A core with two workers at the start of that script.
fn core_of_two(alloc: Global) -> Result<Core, NoMemory> {
    Core::new(alloc, handing_over(alloc)?, 2)
}

// Whether the core makes these steps, and there is no outcome before any of them.
fn makes_all(core: &mut Core, events: &[Event]) -> bool {
    for event in events {
        if core.outcome() != None || core.step(*event) != Ok(()) {
            return false;
        }
    }
    true
}

#[test]
fn hands_a_value_over(rt: HostRuntime) -> Result<(), Fail> {
    let mut core = core_of_two(rt.alloc())?;
    let events = [
        Event::Fork(0),
        Event::Steal(1, 0),
        Event::Wait(1),
        Event::Tick(0),
        Event::Signal(0),
        Event::End(0),
        Event::Pop(0),
        Event::Tick(0),
        Event::End(0),
        Event::Resume(0),
        Event::End(0),
    ];
    let are_made = makes_all(&mut core, &events);
    let outcome = core.outcome();
    let next = core.ready_event();
    // (a call, here and below, since it costs much to prove what is dropped)
    drop(core);
    assert!(rt; are_made);
    assert!(rt; outcome == Some(Outcome::Ok(2)));
    assert!(rt; next == None);
    Ok(())
}

// What the core answers to a pop, a tick and a steal that it is to refuse.
fn refusals(core: &mut Core) -> [Result<(), NotNow>; 3] {
    [
        core.step(Event::Pop(1)),
        core.step(Event::Tick(1)),
        core.step(Event::Steal(1, 1)),
    ]
}

#[test]
fn refuses_and_changes_nothing(rt: HostRuntime) -> Result<(), Fail> {
    let mut core = core_of_two(rt.alloc())?;
    let accepted = [Event::Fork(0), Event::Steal(1, 0), Event::Wait(1)];
    let are_made = makes_all(&mut core, &accepted);
    let is_refused = refusals(&mut core)
        == [
            Err(NotNow::ListEmpty),
            Err(NotNow::Idle),
            Err(NotNow::SameWorker),
        ];
    let is_kept = core.events() == accepted.as_slice();
    let goes_on = core.step(Event::Tick(0));
    drop(core);
    assert!(rt; are_made);
    assert!(rt; is_refused);
    assert!(rt; is_kept);
    assert!(rt; goes_on == Ok(()));
    Ok(())
}

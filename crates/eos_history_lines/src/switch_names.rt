//! The names of switches, as a JSON array.

ghost use Rattle.std.specs.Prelude.{◌≡◌, ◌++◌, IfOk, OnOk, map};
ghost use Rattle.serde_json.specs.View.{view, items_view};
ghost use Rattle.eos_machine.specs.Switching.{switch_name};
ghost use Rattle.eos_history_lines.specs.Lines.{named_if, switch_names, switches_value};
ghost use Rattle.eos_history_lines.specs.steps.Reading.{is_text, is_named, switches_in};

use eos_machine::{Switch, Switches};
use serde_json::Value;
use std::alloc::{AllocError, Global};

/// The names of those that are on, in the order of the switches.
#[tactic(auto, unfolding(crate::specs::Lines::switches_value))]
pub(crate) fn value_of_switches(alloc: Global, switches: Switches) -> Result<Value, AllocError>
    ensures { IfOk result (λ value. view value ≡ switches_value switches) }
{
    let mut names = Vec::new(alloc);
    push_names(alloc, &mut names, switches)?;
    Ok(Value::Array(names))
}

fn push_names(alloc: Global, names: &mut Vec<Value>, switches: Switches) -> Result<(), AllocError>
    ensures { OnOk result (map view names.new.items ≡ map view names.old.items ++ switch_names switches) }
{
    push_if(
        alloc,
        names,
        switches.keep_duplicates,
        Switch::KeepDuplicates,
    )?;
    push_if(alloc, names, switches.no_fence, Switch::NoFence)?;
    push_if(alloc, names, switches.no_bump, Switch::NoBump)?;
    push_if(alloc, names, switches.lose_marker, Switch::LoseMarker)?;
    push_if(alloc, names, switches.swap_marker, Switch::SwapMarker)?;
    push_if(alloc, names, switches.hide_listing, Switch::HideListing)?;
    push_if(
        alloc,
        names,
        switches.ignore_generation,
        Switch::IgnoreGeneration,
    )
}

fn push_if(
    alloc: Global,
    names: &mut Vec<Value>,
    is_on: bool,
    switch: Switch,
) -> Result<(), AllocError>
    ensures { OnOk result (map view names.new.items ≡ map view names.old.items ++ named_if is_on (switch_name switch)) }
{
    if is_on {
        let name = String::from_str(alloc, switch.name())?;
        names.push(Value::String(name))?;
    }
    Ok(())
}

/// Those whose names stand in an array.
pub(crate) fn switches_in(names: &[Value]) -> Switches
    ensures { result ≡ switches_in (items_view names.now) }
{
    Switches {
        keep_duplicates: is_named(names, Switch::KeepDuplicates.name()),
        no_fence: is_named(names, Switch::NoFence.name()),
        no_bump: is_named(names, Switch::NoBump.name()),
        lose_marker: is_named(names, Switch::LoseMarker.name()),
        swap_marker: is_named(names, Switch::SwapMarker.name()),
        hide_listing: is_named(names, Switch::HideListing.name()),
        ignore_generation: is_named(names, Switch::IgnoreGeneration.name()),
    }
}

fn is_named(names: &[Value], name: &str) -> bool
    ensures { result ≡ is_named name.now (items_view names.now) }
{
    for item in names {
        if is_text(item, name) {
            return true;
        }
    }
    false
}

fn is_text(value: &Value, text: &str) -> bool
    ensures { result ≡ is_text text.now (view value.now) }
{
    match value.as_str() {
        Some(found) => found == text,
        None => false,
    }
}

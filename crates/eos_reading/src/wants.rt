//! What the applications want of each topic.

ghost use Rattle.std.specs.Prelude.{◌≡◌, ◌++◌, ℕ, List, map, IfOk, OnOk, IsPermutation};
ghost use Rattle.eos_evidence.specs.SpecFields.{outputs_of};
ghost use Rattle.eos_evidence.specs.declared.application.App.{App};
ghost use Rattle.eos_reading.specs.Wanted.{wanted_of};
ghost use Rattle.eos_reading.specs.Names.{plain_name};

use crate::wanted::Wanted;
use bytes::Bytes;
use eos_base::Sorted;
use eos_evidence::{App, is_internal_topic};
use std::alloc::{AllocError, Global};
use std::marker::Model;

/// Puts these topics at the end.
fn push_topics<'a>(all: &mut Vec<&'a [u8]>, topics: &'a [Bytes]) -> Result<(), AllocError>
    ensures { OnOk result (map plain_name all.new.items ≡ map plain_name all.old.items ++ topics.now) }
{
    for topic in topics {
        all.push(topic.as_slice())?;
    }
    Ok(())
}

/// What some applications want of each topic's records. Names are lent. Contracts see it as the list of the topics that they
/// write, in any order.
#[derive(Drop)]
pub struct Wants<'a> {
    outputs: Sorted<&'a [u8]>,
}

impl<'a> Model for Wants<'a> {
    ghost use Rattle.std.specs.Prelude.{ℕ, List, map};
    ghost use Rattle.eos_reading.specs.Names.{plain_name};

    ghost Value = { List (List ℕ) };

    ghost view = { λ w. map plain_name w.outputs };
}

impl<'a> Wants<'a> {
    /// What these applications want.
    ///
    /// # Errors
    /// Only want of memory.
    pub fn of(alloc: Global, apps: &'a [App]) -> Result<Wants<'a>, AllocError>
        ensures { IfOk result (λ wants. IsPermutation (outputs_of apps.now) wants) }
    {
        let mut outputs = Vec::new(alloc);
        for app in apps {
            push_topics(&mut outputs, app.outputs.as_slice())?;
        }
        Ok(Wants {
            outputs: Sorted::of(outputs),
        })
    }

    /// What they want of the records of this topic.
    pub fn of_topic(&self, topic: &[u8]) -> Wanted
        ensures { (apps : List App) → IsPermutation (outputs_of apps) self.now → result ≡ wanted_of apps topic.now }
    {
        if is_internal_topic(topic) {
            Wanted::Texts
        } else if self.outputs.holds(&topic) {
            Wanted::Claims
        } else {
            Wanted::Presence
        }
    }
}

//! An application: its consumer group, and the topics that it reads and writes (KIP-447).

ghost use Rattle.std.specs.Prelude.{◌≡◌, string_bytes, IfOk};
ghost use Rattle.eos_evidence.specs.SpecFields.{outputs_of};

use crate::topics::{Topics, push_topics};
use bytes::Bytes;
use eos_base::Listed;
use std::alloc::{AllocError, Global};
use std::marker::Model;

/// The id of a consumer group: any text. Contracts see it as its bytes.
#[derive(Drop)]
pub struct GroupId {
    text: String,
}

impl Model for GroupId {
    ghost use Rattle.std.specs.Prelude.{ℕ, List, string_bytes};

    ghost Value = { List ℕ };

    ghost view = { λ g. string_bytes g.text };
}

impl GroupId {
    /// The id that this text is. It takes no memory.
    pub fn new(text: String) -> GroupId
        ensures { result ≡ string_bytes text }
    {
        GroupId { text }
    }

    /// The id as a text.
    pub fn as_str(&self) -> &str
        ensures { result.now ≡ self.now }
    {
        self.text.as_str()
    }

    /// The id's bytes, as a record of the offsets log has them.
    pub fn as_bytes(&self) -> &[u8]
        ensures { result.now ≡ self.now }
    {
        self.text.as_bytes()
    }
}

impl Clone for GroupId {
    ghost is_clone = { λ a b. b ≡ a };

    fn clone(&self) -> Result<GroupId, AllocError> {
        let text = self.text.clone()?;
        Ok(GroupId { text })
    }
}

impl PartialEq for GroupId {
    ghost use Rattle.std.specs.Prelude.{bytes_eq};
    ghost use Rattle.std.specs.Cmp.Rules.{comparing};
    ghost use Rattle.std.proofs.Common.{rules};

    ghost eq = { bytes_eq };

    ghost laws = { Prim.search (comparing, rules) };

    fn eq(&self, other: &GroupId) -> bool {
        self.text == other.text
    }
}

impl Eq for GroupId {
    ghost use Rattle.std.specs.Cmp.Rules.{comparing};
    ghost use Rattle.std.proofs.Common.{rules};

    ghost laws = { Prim.search (comparing, rules) };
}

/// An application: its consumer group, the topics that it reads and those that it writes.
#[derive(Clone, Drop)]
pub struct App {
    pub group: GroupId,
    pub sources: Topics,
    pub outputs: Topics,
}

/// Applications, in order.
pub type Apps = Listed<App>;

/// The topics that the applications write, one application after the other.
///
/// # Errors
/// Want of memory alone.
pub fn outputs_of(alloc: Global, apps: &[App]) -> Result<Vec<Bytes>, AllocError>
    ensures { IfOk result (λ topics. topics.items ≡ outputs_of apps.now) }
{
    let mut topics = Vec::new(alloc);
    for app in apps {
        push_topics(&mut topics, app.outputs.as_slice())?;
    }
    Ok(topics)
}

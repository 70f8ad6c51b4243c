//! The messages on their way.

ghost use Rattle.std.specs.Prelude.{◌≡◌, ◌∷◌, ◌++◌, ◌-◌, ◌+◌, ◌≤◌, ◌<◌, [], false, length, slice_get, slice_index_or};
ghost use Rattle.std.specs.Option.{option_map};
ghost use Rattle.eos_machine.specs.World.{with_messages, with_accepted, due_markers};
ghost use Rattle.eos_broker.specs.Held.{becomes};

use super::Store;
use eos_batch::Kind;
use eos_machine::Message;

impl Store {
    /// The number of the next message.
    pub fn message_count(&self) -> u64
        ensures { result ≡ length self.now.world.messages }
    {
        self.messages.len() as u64
    }

    pub fn message(&self, number: u64) -> Option<&Message>
        ensures { option_map (λ m. m.now) result ≡ slice_get self.now.world.messages number }
    {
        self.messages.get(number as usize)
    }

    /// Whether a broker has accepted a message.
    pub fn is_accepted(&self, number: u64) -> bool
        ensures { result ≡ slice_index_or self.now.world.accepted number false }
    {
        match self.accepted.get(number as usize) {
            Some(is_accepted) => *is_accepted,
            None => false,
        }
    }

    /// A broker has accepted a message.
    pub fn note_accepted(&mut self, number: u64)
        ensures { self.new ≡ becomes self.old (with_accepted self.old.world number) 0 }
    {
        let number = number as usize;
        if number < self.accepted.len() {
            self.accepted[number] = true;
        }
    }

    /// Queues a message.
    pub fn queue(&mut self, message: Message)
        requires { 1 ≤ self.old.spare }
        ensures { self.new ≡ becomes self.old (with_messages self.old.world (message ∷ [])) 1 }
    {
        self.spare -= 1;
        let Ok(()) = self.messages.push(message) else {
            unreachable!()
        };
        let Ok(()) = self.accepted.push(false) else {
            unreachable!()
        };
    }

    /// Queues the end markers of a transaction.
    pub fn queue_markers(&mut self, application: usize, epoch: u16, kind: Kind, places: &[usize])
        requires { length places.now ≤ self.old.spare }
        ensures { self.new ≡ becomes self.old (with_messages self.old.world (due_markers application epoch kind places.now)) (length places.now) }
    {
        for place in places {
            self.queue(Message::Marker {
                application,
                epoch,
                kind,
                place: *place,
            });
        }
    }
}

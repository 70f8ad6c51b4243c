//! Laws that are functions which do nothing: each is called of values that are what it asks for.

use eos_batch::Kind;
use eos_batch::laws::prefix_free;
use eos_broker::laws::appends_in_order;
use eos_touch::Touch;
use eos_touch::laws::neighbours;

/// Calls them.
pub fn hold_of_samples() {
    let plain = Touch::Data {
        epoch: 1,
        transactional: false,
        sequence: 0,
        count: 1,
    };
    let commit = Touch::End {
        epoch: 1,
        kind: Kind::Commit,
    };
    neighbours(&[plain, commit], true);
    prefix_free(b"a", b"ab");
    appends_in_order();
}

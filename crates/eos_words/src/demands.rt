//! What a yes has to meet.

/// What has to hold of a yes so that its exit status is 0.
#[derive(Clone, Copy)]
pub struct Demands {
    /// Whether no note may stand.
    pub strict: bool,
    /// How many transactions it counts, where that is said; inputs and outputs likewise.
    pub transactions: Option<u64>,
    pub inputs: Option<u64>,
    pub outputs: Option<u64>,
}

impl Demands {
    /// No count is expected.
    fn new(strict: bool) -> Demands {
        Demands {
            strict,
            transactions: None,
            inputs: None,
            outputs: None,
        }
    }

    /// The place of the count of this name.
    fn expect(&mut self, name: &str, count: u64) -> bool {
        let place = match name {
            "transactions" => &mut self.transactions,
            "inputs" => &mut self.inputs,
            "outputs" => &mut self.outputs,
            _ => return false,
        };
        place.replace(count).is_none()
    }

    /// Takes a word NAME=N up. It is refused where it is none, and where a word of this name came before.
    fn add(&mut self, word: &str) -> bool {
        match word.split_once('=') {
            Some((name, digits)) => match count_of(digits) {
                Some(count) => self.expect(name, count),
                None => false,
            },
            None => false,
        }
    }
}

/// A number in digits alone.
fn count_of(digits: &str) -> Option<u64> {
    if digits.starts_with('+') {
        return None;
    }
    digits.parse::<u64>().ok()
}

/// What these words demand, each of them NAME=N of another name, with whether a note may stand.
///
/// # Errors
/// The first word that isn't such a one, or whose name came before.
pub(crate) fn read_demands<'a>(strict: bool, words: &[&'a str]) -> Result<Demands, &'a str> {
    let mut demands = Demands::new(strict);
    for word in words {
        if !demands.add(word) {
            return Err(word);
        }
    }
    Ok(demands)
}

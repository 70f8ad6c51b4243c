//! A JSON object that is being made, for the crates that write their lines and reports so.

ghost use Rattle.std.specs.Prelude.{◌≡◌, IfOk, OnOk, codes};
ghost use Rattle.serde_json.specs.Data.{boolean, no_members, put as with_member, object, string};
ghost use Rattle.serde_json.specs.View.{view};
ghost use Rattle.hex.specs.Hex.{encode_lower};
ghost use Rattle.eos_manifest.specs.Objects.{held, count, integer, text_value};

use serde_json::{Map, Value};
use std::alloc::{AllocError, Global};

/// A JSON object that is being made. A member is put in, or in the place of one of its name.
///
/// # Errors
/// Each call that puts one in refuses for want of memory alone.
#[derive(Drop)]
pub struct Object {
    alloc: Global,
    members: Map<String, Value>,
}

impl Object {
    /// An object without a member.
    pub fn new(alloc: Global) -> Object
        ensures { held result ≡ no_members }
    {
        Object {
            alloc,
            members: Map::new(alloc),
        }
    }

    /// An object without a member, whose memory is taken where this one's is.
    pub fn another(&self) -> Object
        ensures { held result ≡ no_members }
    {
        Object::new(self.alloc)
    }

    /// Puts a member in.
    pub fn put(&mut self, name: &str, value: Value) -> Result<(), AllocError>
        ensures { OnOk result (held self.new ≡ with_member name.now (view value) (held self.old)) }
    {
        let name = String::from_str(self.alloc, name)?;
        self.members.insert(name, value)?;
        Ok(())
    }

    /// Puts a member for a number in.
    pub fn put_count(&mut self, name: &str, n: u64) -> Result<(), AllocError>
        ensures { OnOk result (held self.new ≡ with_member name.now (count n) (held self.old)) }
    {
        self.put(name, Value::from(n))
    }

    /// Puts a member for a number in.
    pub fn put_size(&mut self, name: &str, n: usize) -> Result<(), AllocError>
        ensures { OnOk result (held self.new ≡ with_member name.now (count n) (held self.old)) }
    {
        self.put_count(name, n as u64)
    }

    /// Puts a member for an integer in, which may be below 0.
    pub fn put_integer(&mut self, name: &str, n: i64) -> Result<(), AllocError>
        ensures { OnOk result (held self.new ≡ with_member name.now (integer n) (held self.old)) }
    {
        self.put(name, Value::from(n))
    }

    /// Puts a member for a boolean in.
    pub fn put_flag(&mut self, name: &str, flag: bool) -> Result<(), AllocError>
        ensures { OnOk result (held self.new ≡ with_member name.now (boolean flag) (held self.old)) }
    {
        self.put(name, Value::Bool(flag))
    }

    /// Puts a member for a text in.
    pub fn put_str(&mut self, name: &str, text: &str) -> Result<(), AllocError>
        ensures { OnOk result (held self.new ≡ with_member name.now (string text.now) (held self.old)) }
    {
        let text = String::from_str(self.alloc, text)?;
        self.put(name, Value::String(text))
    }

    /// Puts a member for bytes in: a text where they are UTF-8, else an object with their digits.
    pub fn put_text(&mut self, name: &str, bytes: &[u8]) -> Result<(), AllocError>
        ensures { OnOk result (held self.new ≡ with_member name.now (text_value bytes.now) (held self.old)) }
    {
        match str::from_utf8(bytes) {
            Ok(text) => self.put_str(name, text),
            Err(_) => {
                let digits = value_of_digits(self.alloc, bytes)?;
                self.put(name, digits)
            }
        }
    }

    /// The value that it is.
    pub fn into_value(self) -> Value
        ensures { view result ≡ object (held self) }
    {
        Value::Object(self.members)
    }
}

fn value_of_digits(alloc: Global, bytes: &[u8]) -> Result<Value, AllocError>
    ensures { IfOk result (λ value. view value ≡ object (with_member (codes "hex") (string (encode_lower bytes.now)) no_members)) }
{
    let digits = hex::encode(alloc, bytes)?;
    let mut made = Object::new(alloc);
    made.put("hex", Value::String(digits))?;
    Ok(made.into_value())
}

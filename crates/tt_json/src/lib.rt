//! JSON objects that are built member by member. What an object has is its keys with their values, in
//! the order of the keys by bytes, whatever the order in which they came. A law beside it, `read_text`
//! of `proofs/BackLemmas.antt`: the text of a value whose numbers are integers is read back as that
//! value.
#![tactic(auto)]

ghost use Rattle.std.specs.Prelude.{◌≡◌, IfOk, option_map};
ghost use Rattle.serde_json.specs.Data.{object, number, unsigned, string, boolean, put, no_members};
ghost use Rattle.serde_json.specs.View.{view, members_view};
ghost use Rattle.tt_json.specs.Members.{put_if};

use serde_json::{Map, Value};
use std::alloc::{AllocError, Global};

/// An object, built member by member.
#[derive(Drop)]
pub struct Object {
    alloc: Global,
    members: Map<String, Value>,
}

impl Object {
    /// An object without members.
    pub fn new(alloc: Global) -> Object
        ensures { members_view result.members.entries ≡ no_members }
    {
        Object {
            alloc,
            members: Map::new(alloc),
        }
    }

    /// With this value at the key.
    pub fn with(mut self, key: &str, value: Value) -> Result<Object, AllocError>
        ensures { IfOk result (λ o.
            members_view o.members.entries
            ≡ put key.now (view value) (members_view self.members.entries)) }
    {
        serde_json::put(&mut self.members, self.alloc, key, value)?;
        Ok(self)
    }

    /// With this value at the key, where there is one.
    pub fn with_if(self, key: &str, value: Option<Value>) -> Result<Object, AllocError>
        ensures { IfOk result (λ o.
            members_view o.members.entries
            ≡ put_if key.now (option_map view value) (members_view self.members.entries)) }
    {
        match value {
            Some(value) => self.with(key, value),
            None => Ok(self),
        }
    }

    /// With this number at the key.
    pub fn number(self, key: &str, n: u32) -> Result<Object, AllocError>
        ensures { IfOk result (λ o.
            members_view o.members.entries
            ≡ put key.now (number (unsigned n)) (members_view self.members.entries)) }
    {
        self.with(key, Value::from(n))
    }

    /// With this text at the key.
    pub fn text(self, key: &str, text: &str) -> Result<Object, AllocError>
        ensures { IfOk result (λ o.
            members_view o.members.entries
            ≡ put key.now (string text.now) (members_view self.members.entries)) }
    {
        let value = Value::try_from_str(self.alloc, text)?;
        self.with(key, value)
    }

    /// With this truth value at the key.
    pub fn truth(self, key: &str, truth: bool) -> Result<Object, AllocError>
        ensures { IfOk result (λ o.
            members_view o.members.entries
            ≡ put key.now (boolean truth) (members_view self.members.entries)) }
    {
        self.with(key, Value::Bool(truth))
    }

    /// The object as a value.
    pub fn into_value(self) -> Value
        ensures { view result ≡ object (members_view self.members.entries) }
    {
        let Object { members, .. } = self;
        Value::Object(members)
    }
}

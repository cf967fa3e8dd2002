//! The names of members, and those with a number behind them.

ghost use Rattle.std.specs.Prelude.{◌≡◌, IfOk, string_bytes};
ghost use Rattle.lft_elaborate.specs.inner.Names.{name_in, spelled};

use itoa::Buffer;
use lft_whole::Member;
use std::alloc::{AllocError, Global};

/// A name, and a number behind it where it stands for several.
#[derive(Clone, Copy)]
pub struct Numbered<'a> {
    pub name: &'a str,
    pub number: Option<u64>,
}

impl Numbered<'_> {
    /// Its text.
    pub fn spelled(self, alloc: Global) -> Result<String, AllocError>
        ensures { IfOk result (λ text. string_bytes text ≡ spelled self.entry) }
    {
        let mut text = String::from_str(alloc, self.name)?;
        if let Some(number) = self.number {
            let mut buffer = Buffer::new();
            text.push_str("[")?;
            text.push_str(buffer.format(number))?;
            text.push_str("]")?;
        }
        Ok(text)
    }
}

/// The name of a member that has one.
pub fn name_of(member: &Member) -> &str
    ensures { result.now ≡ name_in member.now }
{
    match member {
        Member::Port(port) => port.name.text.as_str(),
        Member::Timer(timer) => timer.name.text.as_str(),
        Member::Action(action) => action.name.text.as_str(),
        Member::Instance(instance) => instance.name.text.as_str(),
        Member::Reaction(_) | Member::Connection(_) | Member::Foreign { .. } => "",
    }
}

// The calls that a case can make, and what the library answers to them.
use crate::given::{BYTES, Given};
use crate::numbers::{Fault, decimal, decimals, ended, exactly, to_bytes};
use answer::{Answer, JointRequest, Request};
use std::alloc::Global;

// How many subjects a set can have.
const MOST: usize = 64;

// A call, and what it asks.
#[derive(Clone, Copy)]
pub(crate) enum Call {
    Read,
    Rule(JointRequest),
    ReadStandard,
    RuleStandard(JointRequest),
    Build,
    Attach,
    LookUp(Request),
}

impl Call {
    // The calls' names, in the order in which they are counted.
    pub(crate) const NAMES: [&'static str; 7] = [
        "read",
        "rule",
        "read_standard",
        "rule_standard",
        "build",
        "attach",
        "look_up",
    ];

    pub(crate) fn name(&self) -> &'static str {
        match self {
            Call::Read => "read",
            Call::Rule(_) => "rule",
            Call::ReadStandard => "read_standard",
            Call::RuleStandard(_) => "rule_standard",
            Call::Build => "build",
            Call::Attach => "attach",
            Call::LookUp(_) => "look_up",
        }
    }

    // The call that a text says, and how many places or bytes it is lent.
    pub(crate) fn parse(alloc: Global, text: &str) -> Result<(Call, usize), Fault> {
        if text == " read" {
            Ok((Call::Read, 0))
        } else if text == " read_standard" {
            Ok((Call::ReadStandard, 0))
        } else if let Some(room) = text.strip_prefix(" build room") {
            let [room] = decimals::<1>(alloc, room)?;
            Ok((Call::Build, usize::from(room)))
        } else if let Some(room) = text.strip_prefix(" attach room") {
            let [room] = decimals::<1>(alloc, room)?;
            Ok((Call::Attach, usize::from(room)))
        } else if let Some(asked) = text.strip_prefix(" look_up") {
            let [subject, resource, action, places] = lent_list::<4>(alloc, asked)?;
            let values = [subject, resource, action];
            Ok((Call::LookUp(Request { values }), usize::from(places)))
        } else {
            ruling(alloc, text)
        }
    }

    // What the library answers, and writes to what it is lent.
    pub(crate) fn ask(
        self,
        given: &Given,
        changes: &str,
        lent: &mut [u16],
    ) -> Result<Answer, Fault> {
        Ok(match self {
            Call::Read => table::read(&given.table(changes)?),
            Call::Rule(request) => ruling::rule(&given.table(changes)?, request, lent),
            Call::ReadStandard => standard::read_standard(&given.table(changes)?),
            Call::RuleStandard(request) => {
                standard::rule_standard(&given.table(changes)?, request, lent)
            }
            Call::Build => building::build(&given.table(changes)?, lent),
            Call::Attach => attach(given, &given.table(changes)?, lent)?,
            Call::LookUp(request) => lookup::look_up(&given.diagram(changes)?, request, lent),
        })
    }
}

// A ruling on a set of subjects.
fn ruling(alloc: Global, text: &str) -> Result<(Call, usize), Fault> {
    let (name, text) = text.split_once('{').ok_or(Fault::NotUnderstood)?;
    let (set, text) = text.split_once('}').ok_or(Fault::NotUnderstood)?;
    let [resource, action, places] = lent_list::<3>(alloc, text)?;
    let request = JointRequest {
        subjects: subjects(&decimal(alloc, ended(set), MOST)?)?,
        others: [resource, action],
    };
    let call = match ended(name) {
        " rule " => Call::Rule(request),
        " rule_standard " => Call::RuleStandard(request),
        _ => return Err(Fault::NotUnderstood),
    };
    Ok((call, usize::from(places)))
}

// A set of subjects, subject k as bit k.
fn subjects(list: &[u16]) -> Result<u64, Fault> {
    let mut set = 0u64;
    for subject in list {
        set |= 1u64
            .checked_shl(u32::from(*subject))
            .ok_or(Fault::NotUnderstood)?;
    }
    Ok(set)
}

// The numbers before and after the word `list`, so many in all.
fn lent_list<const N: usize>(alloc: Global, text: &str) -> Result<[u16; N], Fault> {
    let (asked, places) = text.split_once("list").ok_or(Fault::NotUnderstood)?;
    let mut list = decimal(alloc, asked, N)?;
    list.extend_from_slice(&decimal(alloc, places, N)?)?;
    exactly(list)
}

// The expansion is attached to a base. The numbers of what is lent are lent as bytes.
fn attach(given: &Given, base: &[u8], lent: &mut [u16]) -> Result<Answer, Fault> {
    if lent.len() > BYTES {
        return Err(Fault::NotUnderstood);
    }
    let mut bytes = to_bytes(given.alloc, lent)?;
    let answer = attaching::attach(base, &given.expansion()?, &mut bytes);
    for (number, byte) in lent.iter_mut().zip(bytes.iter()) {
        *number = u16::from(*byte);
    }
    Ok(answer)
}

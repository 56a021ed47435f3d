// What cases start from: the last table, the last expansion and the last diagram, with a case's changes.
use crate::numbers::{Fault, decimal, ended, numbers, text, to_bytes};
use std::alloc::Global;

// Room for more bytes than a table has.
pub(crate) const BYTES: usize = 1500;

// Room for more places than a diagram has.
pub(crate) const PLACES: usize = 33000;

// The most numbers of a case's changes.
const CHANGES: usize = 128;

// The numbers of the last line of each kind.
#[derive(Drop)]
pub(crate) struct Given {
    pub(crate) alloc: Global,
    table: Option<Vec<u16>>,
    expansion: Option<Vec<u16>>,
    diagram: Option<Vec<u16>>,
}

impl Given {
    pub(crate) fn new(alloc: Global) -> Self {
        Self {
            alloc,
            table: None,
            expansion: None,
            diagram: None,
        }
    }

    // A line with a table, an expansion or a diagram.
    pub(crate) fn take(&mut self, line: &[u8]) -> Result<(), Fault> {
        let line = ended(text(line)?);
        if let Some(bytes) = line.strip_prefix("table ") {
            self.table = Some(numbers(self.alloc, bytes, 16, PLACES)?);
        } else if let Some(bytes) = line.strip_prefix("expansion ") {
            self.expansion = Some(numbers(self.alloc, bytes, 16, PLACES)?);
        } else {
            let places = line.strip_prefix("diagram ").ok_or(Fault::NotUnderstood)?;
            self.diagram = Some(decimal(self.alloc, places, PLACES)?);
        }
        Ok(())
    }

    pub(crate) fn table(&self, changes: &str) -> Result<Vec<u8>, Fault> {
        bytes(self.alloc, &self.table, changes)
    }

    pub(crate) fn expansion(&self) -> Result<Vec<u8>, Fault> {
        bytes(self.alloc, &self.expansion, "")
    }

    pub(crate) fn diagram(&self, changes: &str) -> Result<Vec<u16>, Fault> {
        let (mut list, size) = changed(self.alloc, &self.diagram, changes, PLACES)?;
        list.truncate(size);
        Ok(list)
    }
}

// The numbers of a line as bytes, changed. What is cut off has to be bytes, too.
fn bytes(alloc: Global, line: &Option<Vec<u16>>, changes: &str) -> Result<Vec<u8>, Fault> {
    let (list, size) = changed(alloc, line, changes, BYTES)?;
    let mut bytes = to_bytes(alloc, &list)?;
    bytes.truncate(size);
    Ok(bytes)
}

// The numbers of a line, changed by pairs of a place and its number, and how many of them are left: as many as there were,
// or the length that the changes begin with.
fn changed(
    alloc: Global,
    line: &Option<Vec<u16>>,
    changes: &str,
    room: usize,
) -> Result<(Vec<u16>, usize), Fault> {
    let line = line.as_ref().ok_or(Fault::NotUnderstood)?;
    let resized = changes.strip_prefix(" length");
    let said = decimal(alloc, resized.unwrap_or(changes), CHANGES)?;
    let (size, pairs) = match (resized, said.as_slice()) {
        (None, pairs) => (line.len(), pairs),
        (Some(_), [length, pairs @ ..]) => (usize::from(*length), pairs),
        (Some(_), []) => return Err(Fault::NotUnderstood),
    };
    if line.len() > room || size > room {
        return Err(Fault::NotUnderstood);
    }
    let most = size.max(line.len());
    let mut list = Vec::with_capacity(alloc, most)?;
    list.extend_from_slice(line)?;
    list.resize(most, 0)?;
    let left = list
        .as_mut_slice()
        .get_mut(..size)
        .ok_or(Fault::NotUnderstood)?;
    for pair in pairs.chunks(2) {
        let [place, value] = *pair else {
            return Err(Fault::NotUnderstood);
        };
        *left
            .get_mut(usize::from(place))
            .ok_or(Fault::NotUnderstood)? = value;
    }
    Ok((list, size))
}

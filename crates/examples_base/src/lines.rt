// The lines of a program's input.
use crate::answer::Answer;
use std::alloc::Global;

/// What the lines so far have set: the call that cases make, and what they share.
#[derive(Drop)]
pub struct Lines {
    heading: String,
    givens: Vec<String>,
}

// A copy of a text, or none where memory is refused.
fn copied(alloc: Global, text: &str, out: &mut Answer) -> String {
    match String::from_str(alloc, text) {
        Ok(copy) => copy,
        Err(_) => {
            out.refuse("memory");
            String::new(alloc)
        }
    }
}

impl Lines {
    /// No lines so far.
    pub fn new(alloc: Global) -> Lines {
        Lines {
            heading: String::new(alloc),
            givens: Vec::new(alloc),
        }
    }

    /// The call that cases make.
    pub fn heading(&self) -> &str {
        self.heading.as_str()
    }

    /// What the cases share.
    pub fn givens(&self) -> &[String] {
        self.givens.as_slice()
    }

    // One line more of what the cases share.
    fn give(&mut self, alloc: Global, given: &str, out: &mut Answer) {
        if self.givens.push(copied(alloc, given, out)).is_err() {
            out.refuse("memory");
        }
    }

    // Drops what begins with a word.
    fn forget(&mut self, front: &str) {
        self.givens.retain(|given| !given.starts_with(front));
    }

    /// Reads a line and writes it, and gives whether it is a case, behind which its answer stands.
    pub fn read(&mut self, alloc: Global, line: &str, out: &mut Answer) -> bool {
        out.put(line);
        if line.is_empty() || line.starts_with('#') {
            return false;
        }
        if let Some(heading) = line.strip_prefix("== ") {
            self.heading = copied(alloc, heading, out);
            self.givens.clear();
            return false;
        }
        if let Some(given) = line.strip_prefix("given ") {
            self.give(alloc, given, out);
            return false;
        }
        if let Some(front) = line.strip_prefix("forget ") {
            self.forget(front);
            return false;
        }
        out.put(" => ");
        true
    }
}

// Rules as people write them: `R0 = ID ( COMMA R1 )* END`. A leaf is the name of its class, `R1` is rule 1, `|` stands
// between alternatives, `(` and `)` around what belongs together, and `?` and `*` behind what may be missing and what
// is repeated. They are read as codes, in which the number of parts stands before them (`rw_grammar::shapes`): a
// group's codes are written as its words come, and its number of parts is put before them when it ends.
use crate::classes::{class_name, class_of};
use examples_base::{Answer, number_in};
use rw_grammar::Shape;
use std::alloc::Global;

const LEAF: u16 = 0;

const RULE: u16 = 1;

const ROW: u16 = 2;

const CHOICE: u16 = 3;

const OPTION: u16 = 4;

const MANY: u16 = 5;

// What stands between parentheses so far: where its codes begin, how many alternatives have ended, and where the codes
// of the row behind them begin and how many parts it has.
#[derive(Clone, Copy)]
struct Group {
    start: usize,
    alternatives: u16,
    row: usize,
    parts: u16,
}

// The codes so far, and the groups that are open.
#[derive(Drop)]
struct Writer {
    codes: Vec<u16>,
    groups: Vec<Group>,
}

/// A number of 16 bits.
pub fn small(number: u32, out: &mut Answer) -> u16 {
    match u16::try_from(number) {
        Ok(small) => small,
        Err(_) => {
            out.refuse("number below 65,536");
            0
        }
    }
}

// Puts a code before those from a place on.
fn insert(codes: &mut Vec<u16>, at: usize, code: u16, out: &mut Answer) {
    if at > codes.len() || codes.insert(at, code).is_err() {
        out.refuse("code");
    }
}

impl Writer {
    // The innermost group.
    fn innermost(&self) -> Group {
        match self.groups.last() {
            Some(group) => *group,
            None => Group {
                start: 0,
                alternatives: 0,
                row: 0,
                parts: 0,
            },
        }
    }

    // Changes the innermost group.
    fn set_innermost(&mut self, group: Group, out: &mut Answer) {
        match self.groups.last_mut() {
            Some(innermost) => *innermost = group,
            None => out.refuse("open parenthesis"),
        }
    }

    // Opens a group.
    fn open(&mut self, out: &mut Answer) {
        let start = self.codes.len();
        let group = Group {
            start,
            alternatives: 0,
            row: start,
            parts: 0,
        };
        if self.groups.push(group).is_err() {
            out.refuse("memory");
        }
    }

    // Ends the row of the innermost group, which is one alternative more.
    fn end_row(&mut self, out: &mut Answer) {
        let group = self.innermost();
        if group.parts != 1 {
            insert(&mut self.codes, group.row, group.parts, out);
            insert(&mut self.codes, group.row, ROW, out);
        }
        let ended = Group {
            start: group.start,
            alternatives: group.alternatives.saturating_add(1),
            row: self.codes.len(),
            parts: 0,
        };
        self.set_innermost(ended, out);
    }

    // Ends the innermost group, and gives where its codes begin.
    fn close(&mut self, out: &mut Answer) -> usize {
        self.end_row(out);
        let group = self.innermost();
        if group.alternatives != 1 {
            insert(&mut self.codes, group.start, group.alternatives, out);
            insert(&mut self.codes, group.start, CHOICE, out);
        }
        let _ = self.groups.pop();
        group.start
    }

    // Ends a part of the innermost group's row, whose codes begin at a place, with the mark behind it.
    fn end_part(&mut self, start: usize, mark: &str, out: &mut Answer) {
        match mark {
            "?" => insert(&mut self.codes, start, OPTION, out),
            "*" => insert(&mut self.codes, start, MANY, out),
            _ => {}
        }
        let group = self.innermost();
        let longer = Group {
            start: group.start,
            alternatives: group.alternatives,
            row: group.row,
            parts: group.parts.saturating_add(1),
        };
        self.set_innermost(longer, out);
    }

    // One code more.
    fn push(&mut self, code: u16, out: &mut Answer) {
        if self.codes.push(code).is_err() {
            out.refuse("memory");
        }
    }

    // The codes of a name: `R` and the number of a rule, or a class.
    fn push_name(&mut self, name: &str, out: &mut Answer) {
        if let Some(class) = class_of(name) {
            self.push(LEAF, out);
            self.push(class, out);
        } else if let Some(digits) = name.strip_prefix('R') {
            self.push(RULE, out);
            self.push(small(number_in(digits, out), out), out);
        } else {
            out.refuse("name of a class or a rule");
        }
    }

    // One word more of a rule.
    fn push_word(&mut self, word: &str, out: &mut Answer) {
        let (name, mark) = name_and_mark(word);
        match name {
            "(" => self.open(out),
            "|" => self.end_row(out),
            ")" => {
                let start = self.close(out);
                self.end_part(start, mark, out);
            }
            _ => {
                let start = self.codes.len();
                self.push_name(name, out);
                self.end_part(start, mark, out);
            }
        }
    }

    // The codes of a rule.
    fn push_rule(&mut self, rule: &str, out: &mut Answer) {
        self.open(out);
        for word in rule.split_whitespace() {
            self.push_word(word, out);
        }
        let _ = self.close(out);
        if !self.groups.is_empty() {
            out.refuse("closing parenthesis");
        }
    }
}

// A word without its mark, and the mark.
fn name_and_mark(word: &str) -> (&str, &str) {
    if let Some(name) = word.strip_suffix('*') {
        return (name, "*");
    }
    match word.strip_suffix('?') {
        Some(name) => (name, "?"),
        None => (word, ""),
    }
}

// A writer of so many rules.
fn writer_of(alloc: Global, count: usize, out: &mut Answer) -> Writer {
    let mut writer = Writer {
        codes: Vec::new(alloc),
        groups: Vec::new(alloc),
    };
    match u16::try_from(count) {
        Ok(count) => writer.push(count, out),
        Err(_) => out.refuse("number of rules"),
    }
    writer
}

/// The codes of the rules of these lines, each with its name and `=` before it.
pub fn codes_in(alloc: Global, lines: &[String], out: &mut Answer) -> Vec<u16> {
    let mut writer = writer_of(alloc, lines.len(), out);
    for line in lines {
        match line.as_str().split_once('=') {
            Some((_, rule)) => writer.push_rule(rule, out),
            None => out.refuse("="),
        }
    }
    let Writer { codes, groups: _ } = writer;
    codes
}

/// The codes of the rules of one line, between which `;` stands.
pub fn codes_in_line(alloc: Global, line: &str, out: &mut Answer) -> Vec<u16> {
    let mut writer = writer_of(alloc, line.split(';').count(), out);
    for rule in line.split(';') {
        writer.push_rule(rule, out);
    }
    let Writer { codes, groups: _ } = writer;
    codes
}

// Writes shapes in parentheses.
#[cycle(shape)]
fn put_parts(parts: &[Shape], between: &str, out: &mut Answer) {
    out.put("(");
    for (at, part) in parts.iter().enumerate() {
        out.put_between(at, between);
        put_shape(part, out);
    }
    out.put(")");
}

/// Writes a shape. A row or alternatives stand in parentheses.
#[cycle(shape)]
pub fn put_shape(shape: &Shape, out: &mut Answer) {
    match shape {
        Shape::Leaf(class) => out.put(class_name(*class)),
        Shape::Rule(rule) => {
            out.put("R");
            out.put_number(*rule as usize);
        }
        Shape::Opt(part) => {
            put_shape(part.get(), out);
            out.put("?");
        }
        Shape::Many(part) => {
            put_shape(part.get(), out);
            out.put("*");
        }
        Shape::Seq(row) => put_parts(row.as_slice(), " ", out),
        Shape::Choice(alternatives) => put_parts(alternatives.as_slice(), " | ", out),
    }
}

// Places in files, as people write them. Their lines are `package NAME`, `import [static] NAME[.*]`, `around NAME
// TYPEPARAMETERS..` for the classes around a unit, the outermost first, and `frame` for the scopes inside of it, the
// outermost first: `local NAME TYPE`, `param NAME`, `class NAME`, `body ..` and `anonymous ..` of a local and an
// anonymous class (see `bodies`), and `declared NAME`, or `row COUNT` for locals `v0`, `v1` and so on.
use crate::bodies::body_in;
use crate::types::{first_word, name_in, names_in, type_in};
use crate::world::Lists;
use examples_base::{Answer, number_in};
use j_names::{EnclosingClass, Frame, Frames, ImportRow, UnitContext};
use jtypes::{ListWorld, Name, SharedList};
use std::alloc::Global;

/// A place in a file, and the world around it.
#[derive(Drop)]
pub struct Place {
    pub world: ListWorld,
    pub cx: UnitContext,
    pub frames: Frames,
}

// What the lines so far have said of a place.
#[derive(Drop)]
struct Reader {
    lists: Lists,
    package: Option<Name>,
    imports: Vec<ImportRow>,
    enclosing: Vec<EnclosingClass>,
    frames: Frames,
}

// An import: `static` perhaps, a name, and `.*` perhaps.
fn import(alloc: Global, text: &str, out: &mut Answer) -> Option<ImportRow> {
    let line = text.strip_prefix("static ").unwrap_or(text);
    let name = line.strip_suffix(".*").unwrap_or(line);
    Some(ImportRow {
        name: name_in(alloc, name, out)?,
        is_static: line.len() < text.len(),
        on_demand: name.len() < line.len(),
    })
}

// A class around a unit: its name and those of its type parameters.
fn enclosing(alloc: Global, text: &str, out: &mut Answer) -> Option<EnclosingClass> {
    let (name, behind) = first_word(text);
    let name = name_in(alloc, name, out)?;
    let type_params = SharedList::new(alloc, names_in(alloc, behind, out)).ok()?;
    Some(EnclosingClass { name, type_params })
}

// A local variable: its name and its type.
fn local(alloc: Global, text: &str, out: &mut Answer) -> Option<Frame> {
    let (name, ty) = first_word(text);
    let name = name_in(alloc, name, out)?;
    let ty = type_in(alloc, ty, out);
    Some(Frame::Local { name, ty })
}

// A scope inside a unit.
fn frame(alloc: Global, text: &str, out: &mut Answer) -> Option<Frame> {
    let (kind, behind) = first_word(text);
    match kind {
        "local" => local(alloc, behind, out),
        "body" => Some(body_in(alloc, false, behind, out)),
        "anonymous" => Some(body_in(alloc, true, behind, out)),
        "param" => Some(Frame::TypeParam {
            name: name_in(alloc, behind, out)?,
        }),
        "class" => Some(Frame::Class {
            name: name_in(alloc, behind, out)?,
        }),
        "declared" => Some(Frame::Declared {
            name: name_in(alloc, behind, out)?,
        }),
        _ => None,
    }
}

impl Reader {
    // Adds an import.
    fn push_import(&mut self, alloc: Global, text: &str, out: &mut Answer) {
        if let Some(row) = import(alloc, text, out) {
            if self.imports.push(row).is_err() {
                out.refuse("memory");
            }
        }
    }

    // Adds a class around the unit, inside of those before it.
    fn push_enclosing(&mut self, alloc: Global, text: &str, out: &mut Answer) {
        match enclosing(alloc, text, out) {
            Some(class) => {
                if self.enclosing.push(class).is_err() {
                    out.refuse("memory");
                }
            }
            None => out.refuse("class around"),
        }
    }

    // Adds a scope, inside of those before it.
    fn push_frame(&mut self, alloc: Global, text: &str, out: &mut Answer) {
        match frame(alloc, text, out) {
            Some(frame) => {
                if self.frames.push(frame).is_err() {
                    out.refuse("memory");
                }
            }
            None => out.refuse("frame"),
        }
    }

    // Adds so many locals.
    fn push_row(&mut self, alloc: Global, count: u32, out: &mut Answer) {
        for at in 0..count {
            match format!(in alloc; "local v{at} int") {
                Ok(text) => self.push_frame(alloc, text.as_str(), out),
                Err(_) => out.refuse("memory"),
            }
        }
    }

    // Adds the scopes of a line.
    fn push_frames(&mut self, alloc: Global, text: &str, out: &mut Answer) {
        match text.strip_prefix("row ") {
            Some(count) => self.push_row(alloc, number_in(count, out), out),
            None => self.push_frame(alloc, text, out),
        }
    }

    // Adds what a line says.
    fn push_line(&mut self, alloc: Global, line: &str, out: &mut Answer) {
        let (first, behind) = first_word(line);
        match first {
            "package" => self.package = name_in(alloc, behind, out),
            "import" => self.push_import(alloc, behind, out),
            "around" => self.push_enclosing(alloc, behind, out),
            "frame" => self.push_frames(alloc, behind, out),
            _ => self.lists.push_line(alloc, line, out),
        }
    }

    // The place, with its world.
    fn into_place(self, alloc: Global, out: &mut Answer) -> Option<Place> {
        let Reader {
            lists,
            package,
            imports,
            enclosing,
            frames,
        } = self;
        let cx = UnitContext {
            package: package?,
            imports: SharedList::new(alloc, imports).ok()?,
            enclosing: SharedList::new(alloc, enclosing).ok()?,
        };
        let world = lists.into_world(alloc, out)?;
        Some(Place { world, cx, frames })
    }
}

/// The place of these lines. In front of a `package` line it stands in the unnamed package.
pub fn place_in(alloc: Global, lines: &[String], out: &mut Answer) -> Option<Place> {
    let mut reader = Reader {
        lists: Lists::new(alloc),
        package: name_in(alloc, "", out),
        imports: Vec::new(alloc),
        enclosing: Vec::new(alloc),
        frames: Frames::new(alloc),
    };
    for line in lines {
        reader.push_line(alloc, line.as_str(), out);
    }
    let place = reader.into_place(alloc, out);
    if place.is_none() {
        out.refuse("place");
    }
    place
}

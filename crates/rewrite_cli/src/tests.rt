// The top call over a store in memory, also where one call fails: the status, the text, and which files have their new
// bytes then.
use crate::rewrite::rewrite;
use memory_stores::MemoryStore;
use rw_host::{MemorySink, OpenGate, PathText, Store};
use std::alloc::Global;
use std::test::Fail;

const NAMES: [&str; 3] = ["a.properties", "b/c.properties", "d.properties"];

// Files of other kinds and hidden ones. None of them is read: the numbers of the calls don't count them.
const OTHERS: [&str; 6] = [
    "a.txt",
    "b/c.yml",
    "b/D.java",
    "noending",
    ".u.properties",
    ".git/v.properties",
];

const RECIPES: &[u8] = b"type: specs.openrewrite.org/v1beta/recipe
name: shop.R
recipeList:
  - org.openrewrite.properties.ChangePropertyKey:
      oldPropertyKey: old
      newPropertyKey: new
";

// How many calls of the store it takes to put those files there.
const BEFORE: u32 = 20;

fn put(alloc: Global, store: &mut MemoryStore, name: &str, bytes: &[u8]) -> Result<(), Fail> {
    let Some(path) = PathText::new(alloc, name)? else {
        return Err(Fail::new("no path"));
    };
    let bytes = Vec::from_slice(alloc, bytes)?;
    store.reserve(1)?;
    store.write(path, bytes)?;
    Ok(())
}

// The store with those files, which have the old key, whose call of this number from then on fails.
fn store_failing_at(alloc: Global, call: u32) -> Result<MemoryStore, Fail> {
    let fail = vec![in alloc; call.saturating_add(BEFORE)]?;
    let mut store = MemoryStore::new(alloc, Vec::new(alloc), fail, 0)?;
    for name in NAMES {
        put(alloc, &mut store, name, b"old=1")?;
    }
    for name in OTHERS {
        put(alloc, &mut store, name, b"old=1")?;
    }
    put(alloc, &mut store, "rewrite.yml", RECIPES)?;
    Ok(store)
}

fn has(alloc: Global, store: &mut MemoryStore, name: &str, bytes: &[u8]) -> Result<bool, Fail> {
    match store.read(alloc, name, u32::MAX)? {
        Some(found) => Ok(found.as_slice() == bytes),
        None => Ok(false),
    }
}

fn words_of(alloc: Global, texts: &[&str]) -> Result<Vec<String>, Fail> {
    let mut words = Vec::new(alloc);
    for text in texts {
        words.push(String::from_str(alloc, text)?)?;
    }
    Ok(words)
}

// What a run over that store answers, and how many of the properties files, from the first on, have the new key then.
fn run_failing_at(alloc: Global, call: u32) -> Result<(u8, usize), Fail> {
    let words = words_of(alloc, &["run", "--recipe", "shop.R"])?;
    let mut store = store_failing_at(alloc, call)?;
    let mut out = MemorySink::with_room(alloc, 1000)?;
    let status = rewrite(alloc, &words, &mut store, &mut out, &OpenGate);
    for name in OTHERS {
        if !has(alloc, &mut store, name, b"old=1")? {
            return Err(Fail::new("a file of another kind is changed"));
        }
    }
    let mut renamed = 0usize;
    for name in NAMES {
        if !has(alloc, &mut store, name, b"new=1")? {
            break;
        }
        renamed = renamed.saturating_add(1);
    }
    Ok((status, renamed))
}

#[test]
fn each_call_that_fails_is_told(rt: HostRuntime) -> Result<(), Fail> {
    let table = [
        ("the read of the gate", 1, 4, 0),
        ("the sync of the recovery", 2, 5, 0),
        ("list", 3, 4, 0),
        ("the first read", 4, 4, 0),
        ("the last read of a source file", 8, 4, 0),
        ("the read of the history", 9, 4, 0),
        ("the read of the recipe file", 10, 4, 0),
        ("reserve", 11, 4, 0),
        ("the write of the journal", 12, 5, 0),
        ("the sync of the journal", 13, 5, 0),
        ("the write of the gate", 14, 5, 0),
        ("the sync of the gate", 15, 5, 0),
        ("the write of the history", 16, 5, 0),
        ("the first write", 17, 5, 0),
        ("the second write", 18, 5, 1),
        ("the last write", 19, 5, 2),
        ("the sync of the files", 20, 5, 3),
        ("the removal of the gate", 21, 5, 3),
        ("the sync of the removal", 22, 5, 3),
        ("no call", 99, 1, 3),
    ];
    for (name, call, status, renamed) in table {
        let told = run_failing_at(rt.alloc(), call)?;
        assert_eq!(rt; told, (status, renamed), "where {name} fails");
    }
    Ok(())
}

// Whether these words, over that store, into a sink of this room, answer this status and put this text.
fn answers(
    alloc: Global,
    texts: &[&str],
    call: u32,
    room: u32,
    status: u8,
    text: &[u8],
) -> Result<bool, Fail> {
    let words = words_of(alloc, texts)?;
    let mut store = store_failing_at(alloc, call)?;
    let mut out = MemorySink::with_room(alloc, room)?;
    let answered = rewrite(alloc, &words, &mut store, &mut out, &OpenGate);
    Ok(answered == status && out.bytes() == text)
}

#[test]
fn check_tells_what_fails(rt: HostRuntime) -> Result<(), Fail> {
    let all: &[u8] = b"files 5\nrefused b/D.java 1:1 Unexpected\n";
    let table: [(&str, u32, u32, u8, &[u8]); 7] = [
        ("the read of the gate", 1, 100, 4, b"read fault\n"),
        ("list", 2, 100, 4, b"read fault\n"),
        ("the last read", 6, 100, 4, b"read fault\n"),
        ("list, without room for the line", 2, 5, 4, b""),
        ("no call", 99, 100, 1, all),
        ("no call, with just room", 99, 40, 1, all),
        ("the sink", 99, 39, 7, b""),
    ];
    for (name, call, room, status, text) in table {
        assert!(rt;
            answers(
                rt.alloc(),
                &["check", "--workers", "64"],
                call,
                room,
                status,
                text
            )?,
            "where {name} fails"
        );
    }
    Ok(())
}

#[test]
fn words_are_answered(rt: HostRuntime) -> Result<(), Fail> {
    let report: &[u8] = b"recipe shop.R\ncycles 1\nfiles 5\nchanged 3\ncreated 0\nremoved 0\n\
changed a.properties\nchanged b/c.properties\nchanged d.properties\nrefused b/D.java 1:1 Unexpected\n";
    let usage: &[u8] = crate::stop::USAGE_LINE;
    let table: [(&[&str], u8, &[u8]); 11] = [
        (&["recover"], 0, b"recovered 0\n"),
        (&["history"], 0, b""),
        (&["run", "--recipe", "shop.R"], 1, report),
        (
            &["dry", "--workers=2", "--cycles", "10", "--recipe=shop.R"],
            1,
            report,
        ),
        (&["run", "--recipe", "shop.Gone"], 3, b"recipe fault 4\n"),
        (
            &["run", "--recipe", "org.openrewrite.FindSourceFiles"],
            3,
            b"recipe fault 5\n",
        ),
        (&["run"], 2, usage),
        (&["run", "--recipe", "shop.R", "--cycles", "11"], 2, usage),
        (&["dry", "--recipe", "-x"], 2, usage),
        (&["check", "--cycles", "2"], 2, usage),
        (
            &["run", "--recipe", "shop.R", "--recipe", "shop.R"],
            2,
            usage,
        ),
    ];
    for (words, status, text) in table {
        assert!(rt;
            answers(rt.alloc(), words, 99, 1000, status, text)?,
            "{words:?}"
        );
    }
    Ok(())
}

// ---- runs that are stopped

const CHANGES: &[u8] = b"type: specs.openrewrite.org/v1beta/recipe
name: shop.R
recipeList:
  - org.openrewrite.properties.ChangePropertyKey:
      oldPropertyKey: old
      newPropertyKey: new
  - org.openrewrite.text.CreateTextFile:
      relativeFileName: made.properties
      fileContents: made
  - org.openrewrite.DeleteSourceFiles:
      filePattern: gone.properties
";

// How many calls of the store it takes to put the files of such a run there and to sync them.
const READY: u32 = 7;

// A store of which a run changes one file, makes one and removes one, and whose calls fail from this one on.
fn store_stopped_at(alloc: Global, call: u32) -> Result<MemoryStore, Fail> {
    let stop = call.saturating_add(READY);
    let mut store = MemoryStore::new(alloc, Vec::new(alloc), Vec::new(alloc), stop)?;
    put(alloc, &mut store, "a.properties", b"old=1")?;
    put(alloc, &mut store, "gone.properties", b"x=1")?;
    put(alloc, &mut store, "rewrite.yml", CHANGES)?;
    store.sync()?;
    Ok(store)
}

// What these words answer over a store: the status and the text.
fn asked<S: Store>(alloc: Global, store: &mut S, texts: &[&str]) -> Result<(u8, Vec<u8>), Fail> {
    let words = words_of(alloc, texts)?;
    let mut out = MemorySink::with_room(alloc, 1000)?;
    let status = rewrite(alloc, &words, store, &mut out, &OpenGate);
    Ok((status, Vec::from_slice(alloc, out.bytes())?))
}

fn reads<S: Store>(
    alloc: Global,
    store: &mut S,
    name: &str,
    bytes: Option<&[u8]>,
) -> Result<bool, Fail> {
    match store.read(alloc, name, u32::MAX)? {
        Some(found) => Ok(Some(found.as_slice()) == bytes),
        None => Ok(bytes.is_none()),
    }
}

// Whether all files are the old ones, and the history is empty.
fn is_old<S: Store>(alloc: Global, store: &mut S) -> Result<bool, Fail> {
    Ok(
        reads(alloc, store, "a.properties", Some(b"old=1"))?
            && reads(alloc, store, "gone.properties", Some(b"x=1"))?
            && reads(alloc, store, "made.properties", None)?
            && asked(alloc, store, &["history"])?.1.is_empty(),
    )
}

// Whether all files are the new ones, and the history has the run.
fn is_new<S: Store>(alloc: Global, store: &mut S) -> Result<bool, Fail> {
    let (status, history) = asked(alloc, store, &["history"])?;
    Ok(
        reads(alloc, store, "a.properties", Some(b"new=1"))?
            && reads(alloc, store, "gone.properties", None)?
            && reads(alloc, store, "made.properties", Some(b"made"))?
            && status == 0
            && history.starts_with(b"1 shop.R cycles 1 changed 1 created 1 removed 1 "),
    )
}

// Wherever the run is stopped and whatever the crash leaves of what wasn't synced, a recovery gives all of the old
// files or all of the new ones.
#[test]
fn stopped_runs_leave_old_or_new(rt: HostRuntime) -> Result<(), Fail> {
    let alloc = rt.alloc();
    for call in 1..30u32 {
        let mut store = store_stopped_at(alloc, call)?;
        let (status, _) = asked(alloc, &mut store, &["run", "--recipe", "shop.R"])?;
        for pick in 0..256u32 {
            let mut left = store.crash(alloc, pick)?;
            let (recovered, _) = asked(alloc, &mut left, &["recover"])?;
            assert_eq!(rt; recovered, 0, "call {call}, pick {pick}");
            let old = is_old(alloc, &mut left)?;
            let new = is_new(alloc, &mut left)?;
            assert!(rt; old != new, "call {call}, pick {pick}");
            assert!(rt; new || status != 0, "call {call}, pick {pick}");
        }
    }
    Ok(())
}

const NO_JOURNAL: &[u8] = b"damaged: .rewrite/journal at 0\n";

const NO_HISTORY: &[u8] = b"damaged: .rewrite/history.csv at 0\n";

// The number of a call that no command comes to.
const NEVER: u32 = 1000;

// The journal and the history may have no reading.
#[test]
fn damage_is_told(rt: HostRuntime) -> Result<(), Fail> {
    let alloc = rt.alloc();
    let commands: [&[&str]; 5] = [
        &["run", "--recipe", "shop.R"],
        &["dry", "--recipe", "shop.R"],
        &["check"],
        &["recover"],
        &["history"],
    ];
    for words in commands {
        let mut store = store_stopped_at(alloc, NEVER)?;
        put(alloc, &mut store, ".rewrite/gate", b"1")?;
        put(alloc, &mut store, ".rewrite/journal", b"x")?;
        let (status, text) = asked(alloc, &mut store, words)?;
        assert_eq!(rt; status, 9, "{words:?}");
        assert_eq!(rt; text.as_slice(), NO_JOURNAL, "{words:?}");
    }
    let mut store = store_stopped_at(alloc, NEVER)?;
    put(alloc, &mut store, ".rewrite/gate", b"x")?;
    put(alloc, &mut store, ".rewrite/history.csv", b"x")?;
    let (status, text) = asked(alloc, &mut store, &["history"])?;
    assert_eq!(rt; status, 9);
    assert_eq!(rt; text.as_slice(), NO_HISTORY);
    Ok(())
}

// ---- stubs

const STUB: &str = ".rewrite/classpath/x.java";

const REFUSED: &[u8] = b"class {";

const ACCEPTED: &[u8] = b"class X { int of(int n); }";

// How many calls of the store it takes to put the files there.
const STUBS_READY: u32 = 12;

// A store with two refused Java files, a properties file that a run changes, an accepted stub and one of this text,
// whose calls fail from this one on.
fn store_with_stub(alloc: Global, stub: &[u8], call: u32) -> Result<MemoryStore, Fail> {
    let stop = call.saturating_add(STUBS_READY);
    let mut store = MemoryStore::new(alloc, Vec::new(alloc), Vec::new(alloc), stop)?;
    put(alloc, &mut store, "-a.java", REFUSED)?;
    put(alloc, &mut store, "a.java", REFUSED)?;
    put(alloc, &mut store, STUB, stub)?;
    put(alloc, &mut store, ".rewrite/classpath/y.java", ACCEPTED)?;
    put(alloc, &mut store, "p.properties", b"old=1")?;
    put(alloc, &mut store, "rewrite.yml", RECIPES)?;
    Ok(store)
}

#[test]
fn stubs_are_told(rt: HostRuntime) -> Result<(), Fail> {
    let alloc = rt.alloc();
    let all: &[u8] = b"files 3\nrefused -a.java 1:7 Unexpected\n\
refused .rewrite/classpath/x.java 1:7 Unexpected\nrefused a.java 1:7 Unexpected\n";
    let files: &[u8] = b"files 3\nrefused -a.java 1:7 Unexpected\nrefused a.java 1:7 Unexpected\n";
    let report: &[u8] = b"recipe shop.R\ncycles 1\nfiles 3\nchanged 1\ncreated 0\nremoved 0\n\
changed p.properties\nrefused -a.java 1:7 Unexpected\nrefused .rewrite/classpath/x.java 1:7 Unexpected\n\
refused a.java 1:7 Unexpected\n";
    let fault: &[u8] = b"read fault\n";
    let table: [(&[&str], &[u8], u32, u8, &[u8]); 7] = [
        (&["check"], REFUSED, NEVER, 1, all),
        (&["check"], ACCEPTED, NEVER, 1, files),
        (&["check"], ACCEPTED, 4, 4, fault),
        (&["check"], ACCEPTED, 7, 4, fault),
        (&["check"], ACCEPTED, 8, 1, files),
        (&["dry", "--recipe", "shop.R"], REFUSED, NEVER, 1, report),
        (&["run", "--recipe", "shop.R"], REFUSED, NEVER, 1, report),
    ];
    for (words, stub, call, status, text) in table {
        let mut store = store_with_stub(alloc, stub, call)?;
        let told = asked(alloc, &mut store, words)?;
        assert_eq!(rt; told.0, status, "{words:?}, where call {call} fails");
        assert_eq!(rt;
            told.1.as_slice(),
            text,
            "{words:?}, where call {call} fails"
        );
    }
    let mut store = store_with_stub(alloc, REFUSED, NEVER)?;
    let _ = asked(alloc, &mut store, &["run", "--recipe", "shop.R"])?;
    assert!(rt; has(alloc, &mut store, STUB, REFUSED)?);
    assert!(rt; has(alloc, &mut store, "p.properties", b"new=1")?);
    Ok(())
}

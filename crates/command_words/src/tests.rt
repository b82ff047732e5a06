// The words of each command, and words that are those of none.
use crate::words::{Command, command_of};
use std::alloc::Global;
use std::test::Fail;

fn words_of(alloc: Global, texts: &[&str]) -> Result<Vec<String>, Fail> {
    let mut words = Vec::new(alloc);
    for text in texts {
        words.push(String::from_str(alloc, text)?)?;
    }
    Ok(words)
}

// The command's name, the recipe and the number of cycles, which are none and 0 where it has no recipe.
fn told<'w>(command: Option<Command<'w>>) -> (&'static str, &'w [u8], u32) {
    match command {
        Some(Command::Apply(asked)) => ("run", asked.recipe, asked.cycles),
        Some(Command::Dry(asked)) => ("dry", asked.recipe, asked.cycles),
        Some(Command::Check) => ("check", b"", 0),
        Some(Command::Recover) => ("recover", b"", 0),
        Some(Command::History) => ("history", b"", 0),
        None => ("none", b"", 0),
    }
}

#[test]
fn words_of_commands(rt: HostRuntime) -> Result<(), Fail> {
    let table: [(&[&str], &str, &[u8], u32); 7] = [
        (&["run", "--recipe", "shop.R"], "run", b"shop.R", 3),
        (&["run", "--recipe=a=b", "--workers=64"], "run", b"a=b", 3),
        (
            &["dry", "--cycles", "10", "--workers", "1", "--recipe=x"],
            "dry",
            b"x",
            10,
        ),
        (&["check"], "check", b"", 0),
        (&["check", "--workers", "2"], "check", b"", 0),
        (&["recover"], "recover", b"", 0),
        (&["history"], "history", b"", 0),
    ];
    for (texts, name, recipe, cycles) in table {
        let words = words_of(rt.alloc(), texts)?;
        assert!(rt;
            told(command_of(&words)) == (name, recipe, cycles),
            "{texts:?}"
        );
    }
    Ok(())
}

#[test]
fn words_of_none(rt: HostRuntime) -> Result<(), Fail> {
    let table: [&[&str]; 20] = [
        &[],
        &[""],
        &["Run", "--recipe", "a"],
        &["run"],
        &["run", "--recipe"],
        &["run", "--recipe", ""],
        &["run", "--recipe="],
        &["run", "--recipe", "-x"],
        &["run", "--recipe", "a", "--recipe", "a"],
        &["run", "--recipe", "a", "--"],
        &["run", "--", "--recipe", "a"],
        &["run", "--recipe", "a", "--workers", "65"],
        &["run", "--recipe", "a", "--workers", "04"],
        &["run", "--recipe", "a", "--workers", "0"],
        &["run", "--recipe", "a", "--cycles=11"],
        &["run", "--recipe", "a", "--cycles=+3"],
        &["check", "--cycles", "2"],
        &["recover", "--workers", "2"],
        &["history", "--recipe=a"],
        &["history", "history"],
    ];
    for texts in table {
        let words = words_of(rt.alloc(), texts)?;
        assert!(rt; command_of(&words).is_none(), "{texts:?}");
    }
    Ok(())
}

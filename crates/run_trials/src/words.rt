// Words and the settings that they give.
use settings::{Command, Settings, WordsFault, settings};
use std::alloc::{AllocError, Global};
use std::test::Fail;

const REWRITE: Settings = Settings {
    command: Command::Rewrite,
    workers: 1,
    fuel: 1_000_000,
    rows: 65_536,
    depth: 4_096,
    cache: 0,
    sizes: false,
    log: false,
    trace: false,
    count: 0,
    seats: 2,
};

const DRILL: Settings = Settings {
    command: Command::Drill,
    ..REWRITE
};

const SCHEDULE: Settings = Settings {
    command: Command::Schedule,
    ..REWRITE
};

const TERMS: Settings = Settings {
    command: Command::Terms,
    ..REWRITE
};

const PACK: Settings = Settings {
    command: Command::Pack,
    ..REWRITE
};

const UNPACK: Settings = Settings {
    command: Command::Unpack,
    ..REWRITE
};

const OUTERMOST: Settings = Settings {
    command: Command::Outermost,
    ..REWRITE
};

const CHECK_LOG: Settings = Settings {
    command: Command::CheckLog,
    ..REWRITE
};

const CHECK_TRACE: Settings = Settings {
    command: Command::CheckTrace,
    ..REWRITE
};

// The words of a line, between single spaces; no words where the line is empty.
fn words_of(alloc: Global, line: &str) -> Result<Vec<String>, AllocError> {
    let mut words = Vec::new(alloc);
    if line.is_empty() {
        return Ok(words);
    }
    for word in line.split(' ') {
        words.push(String::from_str(alloc, word)?)?;
    }
    Ok(words)
}

static ACCEPTED: [(&str, Settings); 39] = [
    ("rec rewrite", REWRITE),
    ("rec rewrite --fuel 2", Settings { fuel: 2, ..REWRITE }),
    ("rec rewrite --fuel=+0", Settings { fuel: 0, ..REWRITE }),
    (
        "rec rewrite --fuel 1000000000",
        Settings {
            fuel: 1_000_000_000,
            ..REWRITE
        },
    ),
    (
        "rec rewrite --fuel 000000000000000000000000000000000000000007",
        Settings { fuel: 7, ..REWRITE },
    ),
    (
        "rec rewrite --depth 5001",
        Settings {
            depth: 5_001,
            ..REWRITE
        },
    ),
    (
        "rec rewrite --depth=65536",
        Settings {
            depth: 65_536,
            ..REWRITE
        },
    ),
    ("rec rewrite --rows 3", Settings { rows: 3, ..REWRITE }),
    (
        "rec rewrite --rows=262144",
        Settings {
            rows: 262_144,
            ..REWRITE
        },
    ),
    (
        "rec rewrite --sizes",
        Settings {
            sizes: true,
            ..REWRITE
        },
    ),
    (
        "rec rewrite --sizes --depth 1 --rows=1 --fuel +3",
        Settings {
            sizes: true,
            depth: 1,
            rows: 1,
            fuel: 3,
            ..REWRITE
        },
    ),
    (
        "rec rewrite --workers 1",
        Settings {
            workers: 1,
            ..REWRITE
        },
    ),
    (
        "rec rewrite --sizes --workers=+16",
        Settings {
            workers: 16,
            sizes: true,
            ..REWRITE
        },
    ),
    (
        "rec rewrite --trace",
        Settings {
            trace: true,
            ..REWRITE
        },
    ),
    (
        "rec rewrite --workers 4 --trace --fuel 2",
        Settings {
            workers: 4,
            trace: true,
            fuel: 2,
            ..REWRITE
        },
    ),
    (
        "rec rewrite --cache 65535",
        Settings {
            cache: 65_535,
            ..REWRITE
        },
    ),
    (
        "rec rewrite --trace --cache=0",
        Settings {
            trace: true,
            ..REWRITE
        },
    ),
    (
        "rec drill --cache=+16 3",
        Settings {
            cache: 16,
            count: 3,
            ..DRILL
        },
    ),
    (
        "rec rewrite --log --sizes",
        Settings {
            log: true,
            sizes: true,
            ..REWRITE
        },
    ),
    (
        "rec drill --log 2",
        Settings {
            log: true,
            count: 2,
            ..DRILL
        },
    ),
    (
        "rec outermost --rows 3 --log",
        Settings {
            rows: 3,
            log: true,
            ..OUTERMOST
        },
    ),
    ("rec drill 1", Settings { count: 1, ..DRILL }),
    (
        "rec drill +065535",
        Settings {
            count: 65_535,
            ..DRILL
        },
    ),
    (
        "rec drill --workers 4 100 --fuel=5",
        Settings {
            workers: 4,
            count: 100,
            fuel: 5,
            ..DRILL
        },
    ),
    (
        "rec drill --rows 7 --depth 9 3",
        Settings {
            rows: 7,
            depth: 9,
            count: 3,
            ..DRILL
        },
    ),
    ("rec schedule", SCHEDULE),
    (
        "rec schedule --seats 1",
        Settings {
            seats: 1,
            ..SCHEDULE
        },
    ),
    (
        "rec schedule --seats=16",
        Settings {
            seats: 16,
            ..SCHEDULE
        },
    ),
    ("rec terms", TERMS),
    ("rec terms --rows 1", Settings { rows: 1, ..TERMS }),
    (
        "rec terms --rows=+262144",
        Settings {
            rows: 262_144,
            ..TERMS
        },
    ),
    ("rec pack", PACK),
    ("rec pack --rows=3", Settings { rows: 3, ..PACK }),
    ("rec unpack", UNPACK),
    ("rec outermost", OUTERMOST),
    (
        "rec outermost --depth=2 --sizes --workers 4 --rows 3 --fuel 5",
        Settings {
            depth: 2,
            sizes: true,
            workers: 4,
            rows: 3,
            fuel: 5,
            ..OUTERMOST
        },
    ),
    ("rec check log", CHECK_LOG),
    ("rec check trace", CHECK_TRACE),
    ("-- rewrite", REWRITE),
];

#[test]
fn accepted_words_give_their_settings(rt: HostRuntime) -> Result<(), Fail> {
    for (line, want) in ACCEPTED {
        let words = words_of(rt.alloc(), line)?;
        assert_eq!(rt; settings(rt.alloc(), words.as_slice()), Ok(want), "{line}");
    }
    Ok(())
}

static REFUSED: [&str; 118] = [
    "",
    "rec",
    "rec --help",
    "rec --version",
    "rec help",
    "rec rew",
    "rec Rewrite",
    "rec -- rewrite",
    "rec --fuel 2 rewrite",
    "rec rewrite rewrite",
    "rec rewrite x",
    "rec rewrite --",
    "rec rewrite -h",
    "rec rewrite --help",
    "rec rewrite --version",
    "rec rewrite --workers 0",
    "rec rewrite --workers 17",
    "rec rewrite --workers",
    "rec rewrite --workers 2 --workers 2",
    "rec rewrite 5",
    "rec schedule --workers 2",
    "rec drill",
    "rec drill 0",
    "rec drill 65536",
    "rec drill -1",
    "rec drill x",
    "rec drill 5=5",
    "rec drill 5 5",
    "rec drill 5 --workers 2 5",
    "rec drill --workers 2",
    "rec drill --workers 5 --fuel",
    "rec drill -- 5",
    "rec drill 5 --",
    "rec drill 5 --sizes",
    "rec drill 5 --seats 2",
    "rec drill --count 5",
    "rec drill N",
    "rec drill N=5",
    "rec drill --cache -1 5",
    "rec Drill 5",
    "rec term",
    "rec terms --rows",
    "rec terms --rows 0",
    "rec terms --rows 262145",
    "rec terms --rows 3 --rows 3",
    "rec terms --sizes",
    "rec terms --depth 3",
    "rec terms x",
    "rec terms --",
    "rec pack --rows 0",
    "rec pack --rows 262145",
    "rec pack x",
    "rec unpack --rows 3",
    "rec unpack --sizes",
    "rec unpack x",
    "rec unpack --",
    "rec unpack --help",
    "rec check",
    "rec outermost x",
    "rec outermost --trace",
    "rec outermost --cache 1",
    "rec outermost --seats 2",
    "rec rewrite --trace --sizes",
    "rec rewrite --sizes --fuel 2 --trace",
    "rec rewrite --trace=",
    "rec rewrite --trace=true",
    "rec rewrite --trace --trace",
    "rec rewrite --trac",
    "rec drill 5 --trace",
    "rec rewrite --log --trace",
    "rec rewrite --cache 1 --trace",
    "rec rewrite --cache 65536",
    "rec rewrite --trace --rows 3 --log",
    "rec rewrite --log=",
    "rec rewrite --log 1",
    "rec rewrite --log --log",
    "rec outermost --lo",
    "rec terms --log",
    "rec check logs",
    "rec check traces",
    "rec check trace log",
    "rec check log trace",
    "rec check trace --trace",
    "rec trace",
    "rec check log x",
    "rec check log log",
    "rec check log --rows 2",
    "rec check --rows 2 log",
    "rec check log --",
    "rec check -- log",
    "rec log",
    "rec log check",
    "rec rewrite --seats 2",
    "rec schedule --rows 2",
    "rec rewrite --fue 2",
    "rec rewrite --fuel",
    "rec rewrite --fuel=",
    "rec rewrite --fuel 1000000001",
    "rec rewrite --fuel 100000000000000000000000000000000000000000",
    "rec rewrite --fuel -1",
    "rec rewrite --fuel ++1",
    "rec rewrite --fuel +",
    "rec rewrite --fuel 1_000",
    "rec rewrite --fuel \u{0661}",
    "rec rewrite --fuel 2 --fuel 2",
    "rec rewrite --fuel=2=2",
    "rec rewrite --fuel --rows 2",
    "rec rewrite --rows 0",
    "rec rewrite --rows 262145",
    "rec rewrite --depth 0",
    "rec rewrite --depth 65537",
    "rec rewrite --sizes=",
    "rec rewrite --sizes=true",
    "rec rewrite --sizes --sizes",
    "rec rewrite --s\u{00ef}zes",
    "rec schedule --seats 0",
    "rec schedule --seats 17",
    "rec schedule 2",
];

#[test]
fn other_words_are_usage(rt: HostRuntime) -> Result<(), Fail> {
    for line in REFUSED {
        let words = words_of(rt.alloc(), line)?;
        assert_eq!(rt;
            settings(rt.alloc(), words.as_slice()),
            Err(WordsFault::Usage),
            "{line}"
        );
    }
    Ok(())
}

#[test]
fn a_fault_reads_as_its_line(rt: HostRuntime) -> Result<(), Fail> {
    let usage = format!(in rt.alloc(); "{}", WordsFault::Usage)?;
    assert_eq!(rt; usage.as_str(), "usage: rec COMMAND [OPTIONS]");
    let memory = format!(in rt.alloc(); "{}", WordsFault::Memory)?;
    assert_eq!(rt; memory.as_str(), "out of memory");
    Ok(())
}

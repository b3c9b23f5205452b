//! What no clause says: that calls succeed, the loops over readers and writers that give and take
//! little, and real files.
use lasp_edge::{
    DirFiles, Failed, Fetch, Files, Sink, StdSink, SureFiles, SureSink, read_up_to, write_whole,
};
use std::alloc::Global;
use std::io::{ErrorKind, Read, Write};
use std::test::Fail;
use std::{env, fs, io, process, rt};

/// Gives one byte a read. The read at `fails_at` bytes fails.
#[derive(Drop)]
struct Drip {
    bytes: &'static [u8],
    given: usize,
    fails_at: usize,
}

impl Read for Drip {
    fn read(&mut self, buf: &mut [u8]) -> io::Result<usize> {
        if self.given == self.fails_at {
            return Err(io::Error::from(ErrorKind::Other));
        }
        match self.bytes.get(self.given) {
            Some(byte) if !buf.is_empty() => {
                buf[0] = *byte;
                self.given += 1;
                Ok(1)
            }
            _ => Ok(0),
        }
    }
}

/// Takes one byte a write. The write at `fails_at` bytes fails, the one at `stops_at` takes none.
#[derive(Drop)]
struct Sip {
    taken: Vec<u8>,
    fails_at: usize,
    stops_at: usize,
}

impl Write for Sip {
    fn write(&mut self, buf: &[u8]) -> io::Result<usize> {
        if self.taken.len() == self.fails_at {
            return Err(io::Error::from(ErrorKind::Other));
        }
        if self.taken.len() == self.stops_at {
            return Ok(0);
        }
        match buf.first() {
            Some(byte) => {
                self.taken.push(*byte)?;
                Ok(1)
            }
            None => Ok(0),
        }
    }

    fn flush(&mut self) -> io::Result<()> {
        Ok(())
    }
}

const NEVER: usize = usize::MAX;

fn is_answer(got: &Result<Vec<u8>, Fetch>, want: Result<&[u8], Fetch>) -> bool {
    match (got, want) {
        (Ok(bytes), Ok(all)) => bytes.as_slice() == all,
        (Err(error), Err(why)) => *error == why,
        _ => false,
    }
}

/// The limit and where the reader fails; the answer's bytes or error, the bytes taken and the faults.
type Reading<'a> = (u64, usize, Result<&'a [u8], Fetch>, usize, u64);

static READS: [Reading; 10] = [
    (6, NEVER, Ok(b"abcde"), 5, 0),
    (5, NEVER, Ok(b"abcde"), 5, 0),
    (4, NEVER, Err(Fetch::TooLong), 5, 0),
    (2, NEVER, Err(Fetch::TooLong), 3, 0),
    (0, NEVER, Err(Fetch::TooLong), 1, 0),
    (u64::MAX, NEVER, Ok(b"abcde"), 5, 0),
    (6, 0, Err(Fetch::Failed), 0, 1),
    (6, 3, Err(Fetch::Failed), 3, 1),
    (5, 5, Err(Fetch::Failed), 5, 1),
    (2, 3, Err(Fetch::TooLong), 3, 0),
];

/// The first read of five bytes that goes otherwise.
fn first_read(alloc: Global, rows: &[Reading]) -> Option<u64> {
    for (limit, fails_at, want, taken, counted) in rows {
        let mut faults = 0;
        let mut reader = Drip {
            bytes: b"abcde",
            given: 0,
            fails_at: *fails_at,
        };
        let answer = read_up_to(alloc, &mut reader, *limit, &mut faults);
        if !is_answer(&answer, *want) || reader.given != *taken || faults != *counted {
            return Some(*limit);
        }
    }
    None
}

#[test]
fn a_file_is_read_byte_by_byte_up_to_the_limit(rt: HostRuntime) -> Result<(), Fail> {
    assert_eq!(rt; first_read(rt.alloc(), &READS), None);
    Ok(())
}

/// Where the writer fails and where it takes nothing; the answer, the bytes taken and the faults.
type Writing<'a> = (usize, usize, Result<(), Failed>, &'a [u8], u64);

static WRITES: [Writing; 5] = [
    (NEVER, NEVER, Ok(()), b"abcde", 0),
    (0, NEVER, Err(Failed), b"", 1),
    (4, NEVER, Err(Failed), b"abcd", 1),
    (NEVER, 0, Err(Failed), b"", 1),
    (NEVER, 2, Err(Failed), b"ab", 1),
];

/// The first write of five bytes that goes otherwise.
fn first_written<'a>(alloc: Global, rows: &'a [Writing<'a>]) -> Option<&'a [u8]> {
    for (fails_at, stops_at, want, taken, counted) in rows {
        let mut faults = 0;
        let mut writer = Sip {
            taken: Vec::new(alloc),
            fails_at: *fails_at,
            stops_at: *stops_at,
        };
        let answer = write_whole(&mut writer, b"abcde", &mut faults);
        if answer != *want || writer.taken.as_slice() != *taken || faults != *counted {
            return Some(taken);
        }
    }
    None
}

#[test]
fn output_is_written_byte_by_byte_until_a_fault(rt: HostRuntime) -> Result<(), Fail> {
    assert_eq!(rt; first_written(rt.alloc(), &WRITES), None);
    Ok(())
}

/// What is fetched up to a limit, and what is answered.
type Fetching<'a> = (&'a str, u64, Result<&'a [u8], Fetch>);

/// The first of some fetches, one after the other, that is answered otherwise.
fn first_fetched<'a, F: Files>(
    files: &mut F,
    alloc: Global,
    rows: &[Fetching<'a>],
) -> Option<&'a str> {
    for (name, limit, want) in rows {
        if !is_answer(&files.fetch(alloc, name, *limit), *want) {
            return Some(name);
        }
    }
    None
}

/// Fetches of sure files.
static SURE_FETCHES: [Fetching; 3] = [
    ("g", 5, Ok(b"graph")),
    ("h", 0, Ok(b"")),
    ("g", 4, Err(Fetch::TooLong)),
];

#[test]
fn sure_files_and_sinks_never_fail(rt: HostRuntime) -> Result<(), Fail> {
    let mut files = SureFiles::new(rt.alloc());
    files.put_file("g", b"graph")?;
    assert_eq!(rt; first_fetched(&mut files, rt.alloc(), &SURE_FETCHES), None);
    assert!(rt; SureSink.put(b"abc").is_ok());
    Ok(())
}

/// Whether a real file of this name is fetched up to its length, not up to a byte less, and not once it is gone.
fn is_fetched<R: rt::Files>(handle: &R, alloc: Global, name: &str) -> Result<bool, Fail> {
    let long = vec![in alloc; b'x'; 20000]?;
    let bytes = long.as_slice();
    let there = [(name, 20000, Ok(bytes)), (name, 19999, Err(Fetch::TooLong))];
    fs::write(handle, name, bytes)?;
    let other = first_fetched(&mut DirFiles::new(handle), alloc, &there);
    fs::remove_file(handle, name)?;
    let gone = DirFiles::new(handle).fetch(alloc, name, 20000);
    Ok(other == None && is_answer(&gone, Err(Fetch::Failed)))
}

#[test]
fn real_files_are_read_up_to_the_limit(rt: HostRuntime) -> Result<(), Fail> {
    let alloc = rt.alloc();
    let file = format!(in alloc; "lasp_edge_{}.txt", process::id(rt.process()))?;
    let path = env::temp_dir(&rt)?.join(alloc, file.as_str())?;
    let is_read = is_fetched(&rt, alloc, path.to_str().ok_or("the path is no text")?)?;
    assert!(rt; is_read);
    Ok(())
}

#[test]
fn real_output_is_written_whole(rt: HostRuntime) -> Result<(), Fail> {
    let mut out = StdSink::new(io::writer(&rt));
    assert!(rt; out.put(b"written\n") == Ok(()));
    let mut broken = StdSink::new(Sip {
        taken: Vec::new(rt.alloc()),
        fails_at: 1,
        stops_at: NEVER,
    });
    assert!(rt; broken.put(b"ab") == Err(Failed));
    Ok(())
}

const ERRORS: &str = "the file can't be read
the file is too long
out of memory
the output can't be written";

#[test]
fn errors_say_what_went_wrong(rt: HostRuntime) -> Result<(), Fail> {
    let [failed, long, memory] = [Fetch::Failed, Fetch::TooLong, Fetch::Memory];
    let said = format!(in rt.alloc(); "{failed}\n{long}\n{memory}\n{}", Failed)?;
    assert!(rt; said.as_str() == ERRORS);
    Ok(())
}

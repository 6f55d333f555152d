//! Lines as they are cut, read and written, each call once (docs/FORMATS.md, "Lines").
use album_eval::Verdict;
use album_lines::{LineIn, Lines, read_judge, write_refusal, write_verdict};
use album_stamps::Refusal;
use bitflags::Flags;
use json::Scratch;
use std::alloc::Global;

/// The length of the line, where it is not too long.
fn len_of(line: Option<&LineIn>) -> Option<usize> {
    match line {
        Some(LineIn::Text(bytes)) => Some(bytes.len()),
        Some(LineIn::TooLong) => None,
        None => None,
    }
}

/// Of two pieces and the end: how many lines end in the first, and how long are the next two lines.
fn cut(
    alloc: Global,
    first: &[u8],
    second: &[u8],
) -> Result<(usize, Option<usize>, Option<usize>), Refusal> {
    let mut lines = Lines::new(alloc);
    let ended = fed(&mut lines, first)?.len();
    let next = len_of(fed(&mut lines, second)?.first());
    Ok((ended, next, len_of(lines.end().as_ref())))
}

/// The lines that end in the piece. Where it is refused for want of memory, nothing of it is kept, and it is fed again.
fn fed(lines: &mut Lines, piece: &[u8]) -> Result<Vec<LineIn>, Refusal> {
    match lines.feed(piece) {
        Ok(ended) => Ok(ended),
        Err(_) => lines.feed(piece),
    }
}

#[test]
fn lines_in_pieces(rt: HostRuntime) {
    let cut = cut(rt.alloc(), b"on", b"e\nlast");
    assert_eq!(rt; cut, Ok((0, Some(3), Some(4))));
}

const QUESTION: &str =
    r#"{"entries":[],"group":5,"groups":[[3,["amy@users"]]],"mask":4,"owner":"bo@users","who":"amy@users"}"#;

/// The head group, how many groups there are, and the mask of a judge line.
fn numbers_of(alloc: Global, text: &str) -> Result<(u64, usize, u32), Refusal> {
    let mut scratch = Scratch::new(alloc);
    let line = read_judge(alloc, &mut scratch, text.as_bytes())?;
    Ok((line.head_group, line.groups.len(), line.mask.bits()))
}

#[test]
fn lines_read(rt: HostRuntime) {
    assert_eq!(rt; numbers_of(rt.alloc(), QUESTION), Ok((5, 1, 4)));
}

/// Whether the line of the verdict is this text.
fn says(alloc: Global, verdict: Verdict, text: &str) -> Result<bool, Refusal> {
    let line = write_verdict(alloc, verdict)?;
    Ok(line.as_slice() == text.as_bytes())
}

/// Whether the line of the refusal is this text.
fn refuses(alloc: Global, refusal: Refusal, text: &str) -> Result<bool, Refusal> {
    let line = write_refusal(alloc, refusal)?;
    Ok(line.as_slice() == text.as_bytes())
}

#[test]
fn lines_written(rt: HostRuntime) {
    let alloc = rt.alloc();
    let denied = says(
        alloc,
        Verdict::DeniedBy(12),
        "{\"answer\":\"denied\",\"at\":12}\n",
    );
    let full = refuses(
        alloc,
        Refusal::AlbumFull,
        "{\"name\":\"AlbumFull\",\"refused\":10}\n",
    );
    assert_eq!(rt; denied, Ok(true));
    assert_eq!(rt; full, Ok(true));
}

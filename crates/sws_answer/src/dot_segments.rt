//! Paths without their dot segments.
ghost use Rattle.std.specs.Prelude.{◌≡◌, ◌<◌, ◌≤◌, ◌+◌, ◌-◌, List, ℕ, [], ◌∷◌, length, not};
ghost use Rattle.std.specs.List.{suffix_len, AllByRecursion};
ghost use Rattle.percent_encoding.specs.Percent.{percent_decode as decoded};
ghost use Rattle.sws_answer.specs.declared.path_room.TheConstants.{PATH_ROOM};
ghost use Rattle.sws_request.specs.Head.{head_limit};
ghost use Rattle.sws_answer.specs.Targets.{is_slash, is_dot, is_double_dot, folders_with, folders_text, without_dot_segments};
ghost use Rattle.sws_answer.specs.DotSteps.{IsSegment, IsWritten, EndsSegment, folders_after, segment_after};

use crate::path_room::PathRoom;
use percent_encoding::percent_decode;

/// Where the last segment of a path begins: behind its last slash.
fn segment_start(path: &[u8]) -> usize
    ensures start { result ≡ length path.now - suffix_len (λ byte. not (is_slash byte)) path.now }
    ensures within { result ≤ length path.now }
{
    let mut start = path.len();
    'segment: while start > 0 && path[start - 1] != b'/' {
        start -= 1;
    }
    start
}

/// Whether the segment stands for the folder that it is in.
fn is_same_folder(segment: &[u8]) -> bool
    ensures { result ≡ is_dot segment.now }
{
    segment == b".".as_slice()
}

/// Whether the segment stands for the folder above that one.
fn is_folder_above(segment: &[u8]) -> bool
    ensures { result ≡ is_double_dot segment.now }
{
    segment == b"..".as_slice()
}

/// Takes the last folder away, if there is one.
fn remove_folder(room: &mut PathRoom)
    ensures removed { (folder : List ℕ) (above : List (List ℕ))
        → AllByRecursion IsSegment (folder ∷ above) → room.old ≡ folders_text (folder ∷ above)
        → room.new ≡ folders_text above }
    ensures top { room.old ≡ [] → room.new ≡ [] }
    ensures short { length room.new ≤ length room.old }
{
    let len = room.bytes().len();
    if len > 0 {
        let start = segment_start(&room.bytes()[..len - 1]);
        room.truncate(start);
    }
}

/// Takes the segment at the end away, if it stands for a folder, and says whether it does; with two
/// dots the folder before it goes too.
fn end_segment(room: &mut PathRoom) -> bool
    ensures ends { (folders : List (List ℕ)) (segment : List ℕ)
        → IsWritten room.old folders segment
        → EndsSegment folders segment result room.old room.new }
    ensures short { length room.new ≤ length room.old }
{
    let start = segment_start(room.bytes());
    if is_same_folder(&room.bytes()[start..]) {
        room.truncate(start);
        return true;
    }
    if is_folder_above(&room.bytes()[start..]) {
        room.truncate(start);
        remove_folder(room);
        return true;
    }
    false
}

/// Puts a slash behind what was written, which ends a segment.
fn end_folder(room: &mut PathRoom)
    requires { length room.old < PATH_ROOM }
    ensures written { (folders : List (List ℕ)) (segment : List ℕ)
        → IsWritten room.old folders segment
        → IsWritten room.new (folders_with folders segment) [] }
    ensures short { length room.new ≤ length room.old + 1 }
{
    if end_segment(room) {
        return;
    }
    if !room.put(b"/") {
        unreachable!();
    }
}

/// Puts one byte more behind what was written.
fn put_byte(byte: u8, room: &mut PathRoom)
    requires { length room.old < PATH_ROOM }
    ensures written { (folders : List (List ℕ)) (segment : List ℕ)
        → IsWritten room.old folders segment
        → IsWritten room.new (folders_after byte folders segment) (segment_after byte segment) }
    ensures short { length room.new ≤ length room.old + 1 }
{
    if byte == b'/' {
        return end_folder(room);
    }
    if !room.put(&[byte]) {
        unreachable!();
    }
}

/// Decodes a path, which stands without its first slash, into the room, and leaves its dot segments
/// out (RFC 3986, section 5.2.4).
pub fn decode_without_dots(path: &[u8], room: &mut PathRoom)
    requires empty { room.old ≡ [] }
    requires short { length path.now < head_limit }
    ensures { room.new ≡ without_dot_segments (decoded path.now) }
{
    'bytes: for byte in percent_decode(path) {
        put_byte(byte, room);
    }
    end_segment(room);
}

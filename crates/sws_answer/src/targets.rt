//! The file that a target names.
ghost use Rattle.std.specs.Prelude.{◌≡◌, ◌<◌, ◌≤◌, true, false, [], ◌∷◌, length, drop, option_map, option_copied, IfSome};
ghost use Rattle.std.specs.List.{position_or_len};
ghost use Rattle.percent_encoding.specs.Percent.{percent_decode as decoded};
ghost use Rattle.sws_answer.specs.declared.path_room.TheConstants.{PATH_ROOM};
ghost use Rattle.sws_answer.specs.Targets.{ends_path, ends_authority, path_of, slash, with_slash, behind_authority, is_absolute, path_and_query, path_read, name_said_by, ends_in_slash as ends_with_slash};

use crate::dot_segments::decode_without_dots;
use crate::fields::is_same_word;
use crate::path_room::PathRoom;
use percent_encoding::percent_decode;
use sws_request::MAX_HEAD;
use sws_site::SiteOptions;

/// Whether the query or the fragment begins with this byte.
fn is_path_end(byte: u8) -> bool
    ensures { result ≡ ends_path byte }
{
    byte == b'?' || byte == b'#'
}

/// Whether the authority ends before this byte.
fn is_authority_end(byte: u8) -> bool
    ensures { result ≡ ends_authority byte }
{
    byte == b'/' || byte == b'?' || byte == b'#'
}

/// How many bytes stand before the query and the fragment.
fn path_len(bytes: &[u8]) -> usize
    ensures len { result ≡ position_or_len ends_path bytes.now }
    ensures within { result ≤ length bytes.now }
{
    for (i, byte) in bytes.iter().enumerate() {
        if is_path_end(*byte) {
            return i;
        }
    }
    bytes.len()
}

/// How many bytes the authority has.
fn authority_len(bytes: &[u8]) -> usize
    ensures len { result ≡ position_or_len ends_authority bytes.now }
    ensures within { result ≤ length bytes.now }
{
    for (i, byte) in bytes.iter().enumerate() {
        if is_authority_end(*byte) {
            return i;
        }
    }
    bytes.len()
}

/// What stands before the query and the fragment.
pub fn path_part(bytes: &[u8]) -> &[u8]
    ensures path { result.now ≡ path_of bytes.now }
    ensures within { length result.now ≤ length bytes.now }
{
    &bytes[..path_len(bytes)]
}

/// What stands behind the authority.
fn behind_host(bytes: &[u8]) -> &[u8]
    ensures rest { result.now ≡ behind_authority bytes.now }
    ensures within { length result.now ≤ length bytes.now }
{
    &bytes[authority_len(bytes)..]
}

/// What stands behind the first slash, which may be left out.
fn behind_root(bytes: &[u8]) -> &[u8]
    ensures rest { result.now ≡ drop 1 (with_slash bytes.now) }
    ensures within { length result.now ≤ length bytes.now }
{
    match bytes {
        [b'/', rest @ ..] => rest,
        _ => bytes,
    }
}

/// Whether the target is in absolute form.
fn is_absolute_form(target: &[u8]) -> bool
    ensures { result ≡ is_absolute target.now }
{
    target.len() >= 7 && is_same_word(&target[..7], b"http://")
}

/// What stands behind the first slash of the path, where the target has one of the two forms.
pub fn behind_first_slash(target: &[u8]) -> Option<&[u8]>
    ensures rest { option_copied result ≡ option_map (drop 1) (path_and_query target.now) }
    ensures within { IfSome result (λ rest. length rest.now ≤ length target.now) }
{
    if target.starts_with(b"/") {
        return Some(&target[1..]);
    }
    if is_absolute_form(target) {
        return Some(behind_root(behind_host(&target[7..])));
    }
    None
}

/// Decodes the path into the room, and says whether there was room for it.
fn decode(path: &[u8], room: &mut PathRoom) -> bool
    requires { room.old ≡ [] }
    ensures decoded { result ≡ true → room.new ≡ decoded path.now }
    ensures outgrown { result ≡ false → PATH_ROOM < length (decoded path.now) }
{
    'bytes: for byte in percent_decode(path) {
        if !room.put(&[byte]) {
            return false;
        }
    }
    true
}

/// Reads the path, which stands without its first slash, into the room, and says whether there was
/// room for it.
fn read_path(options: &SiteOptions, path: &[u8], room: &mut PathRoom) -> bool
    requires { room.old ≡ [] }
    ensures read { result ≡ true → room.new ≡ path_read options.now (slash ∷ path.now) }
    ensures outgrown { result ≡ false
        → PATH_ROOM < length (path_read options.now (slash ∷ path.now)) }
{
    if options.removes_dot_segments && path.len() < MAX_HEAD {
        decode_without_dots(path, room);
        return true;
    }
    decode(path, room)
}

/// Whether nothing stands behind the last slash.
fn is_folder(name: &[u8]) -> bool
    ensures { result ≡ ends_with_slash name.now }
{
    name.is_empty() || name[name.len() - 1] == b'/'
}

/// Writes the name that a path says, which stands without its first slash, into the room, and says
/// whether there was room for it.
pub fn write_name(options: &SiteOptions, path: &[u8], room: &mut PathRoom) -> bool
    ensures written { result ≡ true → room.new ≡ name_said_by options.now (slash ∷ path.now) }
    ensures outgrown { result ≡ false
        → PATH_ROOM < length (name_said_by options.now (slash ∷ path.now)) }
{
    room.clear();
    if !read_path(options, path, room) {
        return false;
    }
    if is_folder(room.bytes()) {
        return room.put(b"index.html");
    }
    true
}

//! Which entries of a folder are hidden.
ghost use Rattle.std.specs.Prelude.{◌≡◌};
ghost use Rattle.sws_files.specs.Hidden.{is_hidden_name};

/// What at the top of a site holds what clients look for at a place that all know (RFC 8615,
/// section 3), as the proofs that a certificate is asked for by the owner of the name.
const WELL_KNOWN: &[u8] = b".well-known";

/// Whether an entry is hidden: its name begins with a dot, and it isn't `.well-known` at the top of
/// the folder.
pub fn is_hidden(name: &str, is_top: bool) -> bool
    ensures { result ≡ is_hidden_name name.now is_top }
{
    let name = name.as_bytes();
    name.first() == Some(&b'.') && !(is_top && name == WELL_KNOWN)
}

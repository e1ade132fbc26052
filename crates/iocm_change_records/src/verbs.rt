ghost use Rattle.std.specs.Prelude.{◌≡◌};
ghost use Rattle.iocm_change_records.specs.Verbs as meaning;

use iocm_tree::Verb;

/// The verb that a name field says, in upper case; none in a field that says something else, or
/// nothing. The verbs are own.
pub fn verb_named(name: &[u8]) -> Option<Verb>
    ensures { result ≡ meaning.verb_named name.now }
{
    match name {
        b"ADD" => Some(Verb::Add),
        b"DELETE" => Some(Verb::Delete),
        b"MODIFY" => Some(Verb::Modify),
        _ => None,
    }
}

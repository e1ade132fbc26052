ghost use Rattle.std.specs.Prelude.{◌≡◌, ◌<◌, ◌≤◌, ◌+◌, ◌++◌, ◌∷◌, [], Some};
ghost use Rattle.std.specs.Option.{option_copied};
ghost use Rattle.arrayvec.specs.ArrayVec.{array_vec_len};
ghost use Rattle.serde_json.specs.Written.{compact_text};
ghost use Rattle.iocm_lines.specs.Altered.{altered_value, seen_value};
ghost use Rattle.iocm_lines.specs.Lines as lines;
ghost use Rattle.iocm_lines.specs.Parts as parts;

use crate::hexadecimal::{digit, digits};
use crate::json_line::{JsonLine, put, put_paths};
use iocm_types::{SubId, View};

/// Puts the line of an altered subchannel, with its end, where no byte is: what its image saw there
/// before, if anything, and what it sees there afterwards.
pub fn put_altered(line: &mut JsonLine, id: SubId, before: Option<&View>, after: Option<&View>)
    requires { line.old.items ≡ [] }
    ensures { line.new.items
        ≡ lines.line (altered_value id (option_copied before.entry) (option_copied after.entry)) }
{
    put(line, b"{\"after\":");
    put_seen(line, after);
    put(line, b",\"before\":");
    put_seen(line, before);
    put(line, &altered_end(&id));
}

/// Puts what is seen at a subchannel, or `null`.
fn put_seen(line: &mut JsonLine, view: Option<&View>)
    requires { array_vec_len line.old + 200 ≤ 600 }
    ensures text { line.new.items ≡ line.old.items ++ compact_text (seen_value (option_copied view.entry)) }
    ensures length { array_vec_len line.new ≤ array_vec_len line.old + 200 }
{
    match view {
        Some(view) => put_view(line, view),
        None => put(line, b"null"),
    }
}

/// Puts what is seen at a subchannel.
fn put_view(line: &mut JsonLine, view: &View)
    requires { array_vec_len line.old + 200 ≤ 600 }
    ensures text { line.new.items ≡ line.old.items ++ compact_text (seen_value (Some view.now)) }
    ensures length { array_vec_len line.new ≤ array_vec_len line.old + 200 }
{
    let pam = view.pam.bits();
    let pim = view.pim.bits();
    let paths = view.paths.as_slice();
    put(line, b"{\"available\":");
    put_paths(line, paths, pam);
    put(line, &seen_until_installed(view));
    put_paths(line, paths, pim);
    put(line, &seen_until_paths(view));
    put_paths(line, paths, 0xFF);
    put(line, &seen_end(view));
}

/// The part from the available paths to the installed ones.
fn seen_until_installed(view: &View) -> [u8; 29]
    ensures text { result ≡ parts.seen_until_installed view.now }
    ensures device { view.now.device < 65536 }
{
    let device = view.device.number();
    let [d1, d2] = digits((device / 256) as u8);
    let [d3, d4] = digits((device % 256) as u8);
    let mut text = *b",\"device\":\"0000\",\"installed\":";
    text[11] = d1;
    text[12] = d2;
    text[13] = d3;
    text[14] = d4;
    text
}

/// The part from the installed paths to all of them.
fn seen_until_paths(view: &View) -> [u8; 20]
    ensures { result ≡ parts.seen_until_paths view.now }
{
    let [a1, a2] = digits(view.pam.bits());
    let mut text = *b",\"pam\":\"00\",\"paths\":";
    text[8] = a1;
    text[9] = a2;
    text
}

/// The part from the paths to the end.
fn seen_end(view: &View) -> [u8; 12]
    ensures { result ≡ parts.seen_end view.now }
{
    let [i1, i2] = digits(view.pim.bits());
    let mut text = *b",\"pim\":\"00\"}";
    text[8] = i1;
    text[9] = i2;
    text
}

/// The part of a line from what was seen before to the end.
fn altered_end(id: &SubId) -> [u8; 91]
    ensures { result ≡ parts.altered_end id.now ++ 10 ∷ [] }
{
    let [n1, n2] = digits((id.number / 256) as u8);
    let [n3, n4] = digits((id.number % 256) as u8);
    let css = digit(id.image.css.number());
    let mif = digit(id.image.mif.number());
    let set = digit(id.set.number());
    let mut text = *b",\"css\":0,\"image\":\"0.0\",\"number\":\"0000\",\"set\":0,\
        \"subchannel\":\"0.0.0.0000\",\"type\":\"altered\"}\n";
    text[7] = css;
    text[18] = css;
    text[20] = mif;
    text[33] = n1;
    text[34] = n2;
    text[35] = n3;
    text[36] = n4;
    text[45] = set;
    text[61] = css;
    text[63] = mif;
    text[65] = set;
    text[67] = n1;
    text[68] = n2;
    text[69] = n3;
    text[70] = n4;
    text
}

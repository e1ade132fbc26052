ghost use Rattle.std.specs.Prelude.{◌≡◌, ◌≤◌, ◌+◌, ◌++◌, length};
ghost use Rattle.arrayvec.specs.ArrayVec.{array_vec_len};
ghost use Rattle.iocm_types.specs.Print.{hex2};
ghost use Rattle.json.specs.Print.{quoted};
ghost use Rattle.serde_json.specs.Written.{compact_text};
ghost use Rattle.iocm_lines.specs.Members.{path_list};
ghost use Rattle.iocm_lines.specs.Subchannel.{paths_in};

use crate::hexadecimal::digits;
use arrayvec::ArrayVec;
use iocm_types::Chpid;

/// The room of a line: the longest has two views, each of three lists of at most eight paths.
const LONGEST: usize = 600;

/// A line of JSON that takes no memory, with its end, or no bytes.
pub type JsonLine = ArrayVec<u8, LONGEST>;

/// Puts bytes at the end of a line that has room for them.
#[inline]
pub(crate) fn put(line: &mut JsonLine, bytes: &[u8])
    requires { array_vec_len line.old + length bytes.now ≤ 600 }
    ensures text { line.new.items ≡ line.old.items ++ bytes.now }
    ensures length { array_vec_len line.new ≡ array_vec_len line.old + length bytes.now }
{
    let Ok(()) = line.try_extend_from_slice(bytes) else {
        unreachable!()
    };
}

/// Puts the list of the paths whose bits are in a mask, the highest for the first path.
#[inline]
pub(crate) fn put_paths(line: &mut JsonLine, paths: &[Chpid], mask: u8)
    requires few { length paths.now ≤ 8 }
    requires room { array_vec_len line.old + 42 ≤ 600 }
    ensures text { line.new.items ≡ line.old.items ++ compact_text (path_list (paths_in mask paths.now)) }
    ensures length { array_vec_len line.new ≤ array_vec_len line.old + 42 }
{
    line.push(b'[');
    let mut bit = 0b1000_0000;
    let mut later = false;
    for path in paths {
        if mask & bit != 0 {
            if later {
                line.push(b',');
            }
            put_path(line, *path);
            later = true;
        }
        bit /= 2;
    }
    line.push(b']');
}

/// Puts the number of a path, as a text.
#[inline]
fn put_path(line: &mut JsonLine, path: Chpid)
    requires { array_vec_len line.old + 4 ≤ 600 }
    ensures text { line.new.items ≡ line.old.items ++ quoted (hex2 path) }
    ensures length { array_vec_len line.new ≡ array_vec_len line.old + 4 }
{
    let [high, low] = digits(path.number());
    line.push(b'"');
    line.push(high);
    line.push(low);
    line.push(b'"');
}

// The fields of a line of calls, parted by one tab: its tag and its numbers.
ghost use Rattle.call_text.specs.inner.Read.{FieldsRead};

use crate::field::number;
use crate::find::find;
use text::line::TAB;

// How many numbers follow the tag.
#[derive(Clone, Copy)]
pub struct Fields {
    pub tag: u8,
    pub count: usize,
}

// The numbers go into the lent array, one after the other, up to the first field that is none or for which the array has no place.
pub fn read_fields(line: &[u8], numbers: &mut [i64]) -> Option<Fields>
    ensures { FieldsRead line.now numbers.old numbers.new result }
{
    let mut count = 0;
    let mut at = find(line, 0, TAB);
    if at != 1 {
        return None;
    }
    let tag = line[0];
    // No plainer: it goes from tab to tab, and stops at the first field that is none, with the numbers before it in the array.
    while at < line.len() {
        let start = at + 1;
        let end = find(line, start, TAB);
        let x = number(&line[start..end])?;
        if numbers.len() <= count {
            return None;
        }
        numbers[count] = x;
        count += 1;
        at = end;
    }
    Some(Fields { tag, count })
}

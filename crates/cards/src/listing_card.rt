// Sheets, from the text to the printed bytes. Card B9 is the listing of document 01.
use crate::verdict::begins;
use sheet::print_sheet;

pub fn prints(text: &[u8], printed: &[u8]) -> bool {
    let mut page = [0; 300];
    print_sheet(text, &mut page) == printed.len() && begins(&page, printed)
}

pub fn listing() -> bool {
    let text = b"(list 2\n(job 2 distance\n(row 0 5)\n(row - 0)\n)\n)\n";
    let printed =
        b"(jobs 1 ticks 10)\n(out 0 0 0 2 7 0)\n(out 0 0 1 2 8 5)\n(out 0 1 0 2 8 -)\n(out 0 1 1 2 9 0)\n";
    prints(text, printed)
}

// A reach job and a distance job with a steepest one between them: no way back is 0 in the first and `-` in the last.
pub fn mixed() -> bool {
    let text =
        b"(list 2\n(job 2 reach\n(row 0 1)\n(row 0 0)\n)\n(job 1 steepest\n(row 7)\n)\n(job 2 distance\n(row 0 5)\n(row - 0)\n)\n)\n";
    let printed =
        b"(jobs 3 ticks 26)\n(out 0 0 0 2 7 1)\n(out 0 0 1 2 8 1)\n(out 0 1 0 2 8 0)\n(out 0 1 1 2 9 1)\n(out 1 0 0 1 15 0)\n(out 2 0 0 2 23 0)\n(out 2 0 1 2 24 5)\n(out 2 1 0 2 24 -)\n(out 2 1 1 2 25 0)\n";
    prints(text, printed)
}

// The sheet for other languages.
ghost use Rattle.std.specs.Prelude.{◌≡◌, min, length};
ghost use Rattle.text.specs.Page.{overwritten};
ghost use Rattle.sheet_form.specs.Sheet.{sheet_of};

use sheet::print_sheet;

// It prints as much of the sheet as there is room for, and returns how many bytes.
pub fn sheet_print(text: &[u8], page: &mut [u8]) -> usize
    ensures outcome { result ≡ min (length page.old) (length (sheet_of text.now)) }
    ensures memory { page.new ≡ overwritten (sheet_of text.now) page.old }
{
    print_sheet(text, page)
}

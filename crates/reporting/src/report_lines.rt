//! The lines of the report by their number.
ghost use Rattle.std.specs.Prelude.{◌≡◌, ◌+◌, ◌-◌, ◌^◌, ◌<◌, ◌≤◌, length};
ghost use Rattle.reporting.specs.Report.{report_line};
ghost use Rattle.reporting.specs.Pages.{line_count, line_at, lines_from, page_size, page_lines, Put};

use super::PAGE;
use super::text::put_number;
use model::{Item, ItemRow, Privileges, Role, Subject};
use permission::decision::permissions;
use tables::Tables;

/// Writes lines at the end of a page, from the last line to the first.
pub fn put_lines(tables: &Tables<'_>, first: u64, count: u64, page: &mut [u8]) -> usize
    requires page_len { length page.old ≡ page_size }
    requires subjects_bound { length tables.now.subjects < 2 ^ 32 }
    requires count_le_page_lines { (count ≤ page_lines) × (first + count < 2 ^ 64) × (count ≤ line_count tables.now - first) }
    ensures { let t = tables.now in
        Put page.old page_size (lines_from t first count) page.new result }
{
    let mut end = PAGE;
    for number in (first..first + count).rev() {
        end = put_line(tables, number, page, end);
    }
    end
}

/// Writes one line so that it ends before offset `end` of the page.
fn put_line(tables: &Tables<'_>, number: u64, page: &mut [u8], end: usize) -> usize
    requires number_bound { number < line_count tables.now }
    requires subjects_bound { length tables.now.subjects < 2 ^ 32 }
    requires le_end { (63 ≤ end) × (end ≤ length page.old) }
    ensures put { Put page.old end (line_at tables.now number) page.new result }
    ensures end_bound { end ≤ result + 63 }
{
    let items = u64::from(tables.count::<ItemRow>());
    let subject = (number / items) as u32;
    let item = (number % items) as u32 + 1;
    let set = permissions(tables, Subject(subject), Role(0), Item(item));
    put_set(page, end, subject, item, set)
}

fn put_set(page: &mut [u8], end: usize, subject: u32, item: u32, set: Privileges) -> usize
    requires { (63 ≤ end) × (end ≤ length page.old) }
    ensures put { Put page.old end (report_line subject item set) page.new result }
    ensures end_bound { end ≤ result + 63 }
{
    let item_end = put_number(page, end, u64::from(set), b'\n');
    let subject_end = put_number(page, item_end, u64::from(item), b' ');
    put_number(page, subject_end, u64::from(subject), b' ')
}

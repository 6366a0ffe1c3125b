// The areas of the count files (01, "Count files"): "Keeping shifts the later files up; dropping shifts them down and zeroes
// the last used entry and area", and a marked deletion "closing up the rest in order" (02, wish 3).
#![tactic(auto)]

ghost use Rattle.std.specs.Prelude.{◌≡◌, List, cond, ◌+◌, ◌*◌, ◌≤◌, ◌<◌, length};
ghost use Rattle.model.specs.declared.Entry.{Entry};
ghost use Rattle.catalogue.specs.declared.Going.{Going};
ghost use Rattle.catalogue.specs.Entries.{stays_when, Says};
ghost use Rattle.areas.specs.Moved.{AreaFree, area_put, area_joined, areas_closed};

use catalogue::Staying;

// A table into the area of place `at`; the areas from there on go up by one.
pub fn put_area(areas: &mut [u8], limit: u32, files: usize, at: usize, table: &[u8])
    requires { AreaFree limit files at (length areas.old) (length table.now) }
    ensures { areas.new ≡ area_put limit files at table.now areas.old }
{
    let size = 8 * (limit as usize);
    let low = size * at;
    codec::move_up(areas, low, size * files, size);
    codec::copy_front(&mut areas[low..low + size], table);
}

// The area of file i down to place j, if it stays. Answers the place for the next.
fn join_area(areas: &mut [u8], size: usize, stays: bool, i: usize, j: usize) -> usize
    requires j_le_i { (j ≤ i) × (i < 16) }
    requires size_in_bounds { size * i + size ≤ length areas.old }
    ensures is { areas.new ≡ area_joined stays size i j areas.old }
    ensures next { result ≡ cond stays (j + 1) j }
{
    if !stays {
        return j;
    }
    if i != j {
        codec::move_down(areas, size * j, size * i, size);
    }
    j + 1
}

// The areas of the files that stay, closed up in one pass, and zeros in those set free.
pub fn close_areas(areas: &mut [u8], limit: u32, files: usize, x: Staying)
    requires limit_bound { (limit ≤ 1024) × (files ≤ 16) }
    requires files_in_bounds { 8 * limit * files ≤ length areas.old }
    ensures { (going : Going) (es : List Entry) → files ≤ length es → Says going files es x
        → areas.new ≡ areas_closed (stays_when going) limit files es areas.old }
{
    let size = 8 * (limit as usize);
    let mut j = 0;
    for i in 0..files {
        j = join_area(areas, size, catalogue::stays_at(x, i), i, j);
    }
    codec::fill_zero(&mut areas[size * j..size * files]);
}

// The plan of the path that work memory holds, handed out.
ghost use Rattle.std.specs.Prelude.{◌≡◌, ◌-◌};
ghost use Rattle.plan_pieces.specs.Along.{reasons_in, pieces_along_numbers, cuts_along_numbers};
ghost use Rattle.plan_pieces.specs.Output.{output_of, handed_of, handed_out_of};
ghost use Rattle.plan_lists.specs.Positions.{entries_in};
ghost use Rattle.plan_path.specs.Search.{lefts_in, rights_in};
ghost use Rattle.plan_steps.specs.Hand.{path_in, HandRoom};

use base_code::layout::Layout;
use grid::FrameGrid;
use path_pieces::ends::Ends;
use plan_pieces::answer::Answer;
use plan_pieces::output;

// Of k candidates and a path of `len` of them.
pub fn hand_out_held(
    g: FrameGrid,
    k: usize,
    len: usize,
    min: f64,
    max: u64,
    work_u32: &[u32],
    work_u64: &[u64],
    pieces: &mut [u64],
    cuts: &mut [u64],
) -> Answer
    requires { HandRoom g.frames k len work_u32.now work_u64.now }
    ensures { handed_of result (output_of pieces.new cuts.new)
        ≡ handed_out_of (len - 1)
        (pieces_along_numbers (lefts_in k work_u64.now)
        (rights_in g.frames k work_u64.now) min max (path_in g.frames len work_u32.now))
        (cuts_along_numbers (lefts_in k work_u64.now) (rights_in g.frames k work_u64.now)
        (reasons_in (entries_in g.frames k work_u32.now))
        (path_in g.frames len work_u32.now))
        (output_of pieces.old cuts.old) }
{
    let places = Layout { frames: g.frames };
    let rights = places.rights_at();
    let entries = places.entries_at();
    let path = places.path_at();
    let ends = Ends {
        left: &work_u64[..k],
        right: &work_u64[rights..rights + k],
    };
    output::hand_out(
        &ends,
        &work_u32[entries..entries + 3 * k],
        &work_u32[path..path + len],
        min,
        max,
        pieces,
        cuts,
    )
}

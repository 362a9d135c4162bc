//! The shape of a tree, with which its root begins.
ghost use Rattle.std.specs.Prelude.{◌≡◌, ◌+◌, ◌*◌, ◌^◌, ◌<◌, Some, nat_lt, IfSome, IsTrue};
ghost use Rattle.ss_cbor.specs.Position.{Reads};
ghost use Rattle.ss_amt.specs.Node.{is_shape, shape_from, root_shape_from, slot_of};

use ss_cbor::Cursor;

/// The width of a root that does not say it.
const WIDTH: u64 = 3;

/// The greatest width.
const MAX_WIDTH: u64 = 18;

/// The most bits that an index has.
const INDEX_BITS: u64 = 63;

/// The shape of a tree: a node has 2^`width` slots, and the root stands at `height`. The bits of an
/// index are at most 63.
#[derive(Clone, Copy, Debug)]
pub(crate) struct Shape {
    pub width: u32,
    pub height: u32,
}

impl Shape {
    /// Reads the shape with which a root begins: a width, a height and a count, which is not
    /// compared; or a height and a count alone.
    #[tactic(auto, unfolding(crate::specs::Node::root_shape_from))]
    pub fn read_root(cursor: &mut Cursor<'_>) -> Option<Shape>
        ensures reads { Reads (λ shape. shape) root_shape_from cursor.old cursor.new result }
        ensures fits { IfSome result (λ shape. IsTrue (is_shape shape.width shape.height)) }
    {
        match cursor.array()? {
            3 => Shape::read(cursor, WIDTH),
            4 => {
                let width = cursor.uint()?;
                Shape::read(cursor, width)
            }
            _ => None,
        }
    }

    /// Reads the height and the count of a tree of this width.
    #[tactic(auto, unfolding(crate::specs::Node::shape_from))]
    fn read(cursor: &mut Cursor<'_>, width: u64) -> Option<Shape>
        ensures reads { Reads (λ shape. shape) (shape_from width) cursor.old cursor.new result }
        ensures fits { IfSome result (λ shape. IsTrue (is_shape shape.width shape.height)) }
    {
        let height = cursor.uint()?;
        let _count = cursor.uint()?;
        if is_shape(width, height) {
            Some(Shape {
                width: width as u32,
                height: height as u32,
            })
        } else {
            None
        }
    }

    /// Whether the index is one of a slot of the tree.
    pub fn has(&self, index: u64) -> bool
        requires { IsTrue (is_shape self.now.width self.now.height) }
        ensures { result ≡ nat_lt index (2 ^ (self.now.width * (self.now.height + 1))) }
    {
        index >> (self.width * (self.height + 1)) == 0
    }
}

// Whether a tree may have this width and this height.
fn is_shape(width: u64, height: u64) -> bool
    ensures { result ≡ is_shape width height }
{
    1 <= width && width <= MAX_WIDTH && height < INDEX_BITS && width * (height + 1) <= INDEX_BITS
}

/// The slot of an index in a node of a height.
pub(crate) fn slot_of(width: u32, height: u32, index: u64) -> usize
    requires { IsTrue (is_shape width height) }
    ensures value { result ≡ slot_of width height index }
    ensures within { result < 2 ^ width }
{
    ((index >> (width * height)) % (1 << width)) as usize
}

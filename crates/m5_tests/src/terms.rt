//! Each call that takes memory, with memory to spare, and what no clause spells out.

ghost use Rattle.std.specs.Prelude.{◌≡◌};
ghost use Rattle.m5_terms.specs.CountsDown.{counts, less_one, sooner, at_zero, no_later, by_two_matches, by_two_is_met, takes};

use m5_terms::ask::{Answer, Ask, Numbers};
use m5_terms::form::{BinaryForm, LeafForm, UnaryForm};
use m5_terms::listed::Listed;
use m5_terms::matching;
use m5_terms::node::{Node, NodeBox};
use m5_terms::opened::{LeafView, Opened};
use m5_terms::primitives::extern_of;
use m5_terms::seal::seal_of;
use m5_terms::size::size_of;
use m5_terms::substitute::substitute;
use m5_terms::text::Text;
use m5_terms::thread::{Focus, Frame, Frames, Thread};
use m5_terms::types::{Prim, Shape, Ty, World, is_same};
use std::test::Fail;

fn is_unit(node: &Node) -> bool {
    matches!(node.open(), Opened::Leaf(LeafView::Unit))
}

#[test]
fn substitutes_free_uses_alone(rt: HostRuntime) -> Result<(), Fail> {
    let alloc = rt.alloc();
    let inner = NodeBox::new(alloc, Node::leaf(LeafForm::Var(1)))?;
    let function = Node::unary(UnaryForm::Fn(1, Ty::new(Shape::Int)), inner);
    let free = NodeBox::new(alloc, Node::leaf(LeafForm::Valid(1)))?;
    let pair = Node::binary(BinaryForm::Pair, free, NodeBox::new(alloc, function)?);
    let value = Node::leaf(LeafForm::Unit);
    let replaced = substitute(alloc, 1, &value, &pair)?;
    let kept = match replaced.open() {
        Opened::Binary(BinaryForm::Pair, first, second) => {
            let bound = match second.open() {
                Opened::Unary(_, body) => matches!(body.open(), Opened::Leaf(LeafView::Var(1))),
                _ => false,
            };
            is_unit(first) && bound
        }
        _ => false,
    };
    assert!(rt; kept);
    Ok(())
}

#[test]
fn measures_a_thread(rt: HostRuntime) -> Result<(), Fail> {
    let alloc = rt.alloc();
    let mut frames: Frames = Listed::make(alloc);
    frames.push(Frame::Return(World::Home))?;
    let text = Text::of(alloc, b"four")?;
    let focus = Focus::Eval(World::Server, Node::leaf(LeafForm::Str(text)));
    let thread = Thread { frames, focus };
    assert_eq!(rt; thread.frames.count(), 1);
    assert_eq!(rt; size_of(&thread), 6);
    Ok(())
}

#[test]
fn copies_asks_answers_and_numbers(rt: HostRuntime) -> Result<(), Fail> {
    let alloc = rt.alloc();
    let ask = Ask::On(Text::of(alloc, b"log")?, 3);
    assert!(rt; matches!(ask, Ask::On(_, 3)));
    let mut numbers: Numbers = Listed::make(alloc);
    numbers.push(7)?;
    let copied = numbers.copy(alloc)?;
    assert_eq!(rt; copied.count(), 1);
    assert_eq!(rt; *copied.at(0), 7);
    let answer = Answer::Event(Text::of(alloc, b"log")?, numbers, Text::of(alloc, b"x")?);
    assert!(rt; matches!(answer, Answer::Event(_, _, _)));
    Ok(())
}

#[test]
fn knows_the_primitives(rt: HostRuntime) -> Result<(), Fail> {
    let alloc = rt.alloc();
    assert_eq!(rt; extern_of(b"get_text"), Some(Prim::GetText));
    assert_eq!(rt; extern_of(b"gettext"), None);
    let read = Prim::Read.ty(alloc)?;
    assert!(rt; is_same(&read, &read.copy()?));
    assert!(rt; !is_same(&read, &Prim::Say.ty(alloc)?));
    assert_eq!(rt;
        seal_of(0x0102_0304).0,
        [0x4d, 0x4c, 0x35, 0x73, 1, 2, 3, 4]
    );
    Ok(())
}

struct ByTwo;

impl matching::Pass for ByTwo {
    ghost input = { counts (λ n. n) };

    ghost output = { counts less_one };

    ghost reading = { sooner (λ n. n) less_one };

    ghost input_moments = { at_zero (λ n. n) };

    ghost output_moments = { at_zero less_one };

    ghost meeting = { no_later (λ n. n) less_one };

    ghost matches = { by_two_matches };

    ghost met = { by_two_is_met };
}

impl matching::TwoPasses for ByTwo {
    ghost first = { counts (λ n. n) };

    ghost second = { counts less_one };

    ghost third = { counts less_one };

    ghost over = { sooner (λ n. n) less_one };

    ghost under = { sooner less_one less_one };

    ghost first_moments = { at_zero (λ n. n) };

    ghost second_moments = { at_zero less_one };

    ghost third_moments = { at_zero less_one };

    ghost met_over = { no_later (λ n. n) less_one };

    ghost met_under = { no_later less_one less_one };
}

impl matching::TwoItemPasses for ByTwo {
    ghost first = { takes };

    ghost second = { takes };

    ghost third = { takes };

    ghost over = { λ n m. n ≡ m };

    ghost under = { λ n m. n ≡ m };

    ghost over_items = { λ w i j. i ≡ j };

    ghost under_items = { λ w i j. i ≡ j };
}

#[test]
fn counting_by_two_plays_along(_rt: HostRuntime) {
    matching::matching_plays_holds::<ByTwo>();
    matching::sound_input_is_played_holds::<ByTwo>();
    matching::two_passes_match_holds::<ByTwo>();
    matching::item_passes_match_holds::<ByTwo>();
}

//! The texts of the library units.
ghost use Rattle.std.specs.Prelude.{◌≡◌, ◌≤◌, map, find, length, IfSome};
ghost use Rattle.std.specs.Option.{option_copied, option_map};
ghost use Rattle.std.specs.Str.{bytes_eq};
ghost use Rattle.merc_entries.specs.Library.{units, unit_text};

// The units with their texts.
const UNITS: [(&[u8], &[u8]); 6] = [
    (b"int", b""),
    (b"string", b""),
    (b"require", b""),
    (b"bool", b":- type bool ---> no ; yes.\n"),
    (b"maybe", b":- type maybe(T) ---> no ; yes(T).\n"),
    (
        b"list",
        b":- type list(T) ---> [] ; [T | list(T)].
:- pred append(list(T), list(T), list(T)).
:- mode append(in, in, out) is det.
:- mode append(out, out, in) is multi.
append([], Ys, Ys).
append([X | Xs], Ys, [X | Zs]) :- append(Xs, Ys, Zs).
:- pred member(T, list(T)).
:- mode member(in, in) is semidet.
:- mode member(out, in) is nondet.
member(X, [X | _]).
member(X, [_ | Xs]) :- member(X, Xs).
:- pred length(list(T)::in, int::out) is det.
length([], 0).
length([_ | Xs], N) :- length(Xs, M), N = M + 1.
:- pred reverse(list(T)::in, list(T)::out) is det.
reverse(Xs, Ys) :- list_reverse_onto(Xs, [], Ys).
:- pred list_reverse_onto(list(T)::in, list(T)::in, list(T)::out) is det.
list_reverse_onto([], A, A).
list_reverse_onto([X | Xs], A, Ys) :- list_reverse_onto(Xs, [X | A], Ys).
",
    ),
];

/// The text of a library unit, of at most 1,000 bytes; `None` exactly where the name is none of the six units. `int`,
/// `string` and `require` have an empty text: their items are built in.
pub fn text_of(name: &[u8]) -> Option<&'static [u8]>
    ensures value { option_copied result ≡ unit_text name.now }
    ensures short { IfSome result (λ text. length text.now ≤ 1000) }
{
    text_in(unit_table(), name)
}

// The units with their texts: the name of each, and then its text.
fn unit_table() -> &'static [(&'static [u8], &'static [u8])]
    ensures { map (λ unit. (unit.0.now, unit.1.now)) result.now ≡ units }
{
    &UNITS
}

// The text that stands beside this name in a table.
fn text_in<'a>(table: &[(&[u8], &'a [u8])], name: &[u8]) -> Option<&'a [u8]>
    ensures { option_copied result ≡ option_map (λ unit. unit.1.now) (find (λ unit. bytes_eq name.now unit.0.now) table.now) }
{
    table.iter().find(|unit| name == unit.0).map(|unit| unit.1)
}

// Expressions, arguments, branches and bodies: they call each other, falling by the instances left and by the levels left.
ghost use Rattle.std.specs.Prelude.{suc, ◌<◌, ◌≤◌, ◌^◌};
ghost use Rattle.language.specs.Limits.{byte_range};
ghost use Rattle.size_steps.specs.Sites.{Room};
ghost use Rattle.size_steps.specs.Agreement.{table};
ghost use Rattle.size_steps.specs.Leaves.{Operands, Entered};
ghost use Rattle.size_steps.specs.Lookups.{Again};
ghost use Rattle.size_laws.specs.Promises.{lent_by, table_of, buffers_of, SameList, Sizes, ExprPart, SizesAll, Enters, EntersNew, ChecksBody, Applies, SizesBranches, SizesBranch, SizesSplits};
ghost use Rattle.size_laws.specs.Parts.{LetPart, IfPart, OpPart, AdjPart, FitPart, CompoundPart, CallPart, ConPart, CasePart};

use estimate::{nothing, one_cell};
use heads::places::SCOPE_WORDS;
use heads::skip::skip;
use heads::{Form, head_at, variable_at};
use index::frames::frame_line;
use index::functions::arity;
use index::types::{constructors, fields, own_fields};
use index::{put, word_at};
use instances::{add, finish};
use language::limits::{FIELDS_MOST, INSTANCES_MOST};
use language::refusals::{Refusal, RefusalAt};
use size_steps::leaves::{again, channel_type, made, prepare, type_in};
use size_steps::numbers::{
    adjusted, agree, branched, called, cased, chosen, fitted, is_type, joined, larger, leaf,
    none_at, nothing_yet, operated, passed, slotted, subject, type_word, with_let,
};
use size_steps::sites::{behind, body_site, down, moved_on, widen};
use size_steps::{Checked, Counted, Entry, Instances, SCOPE_SIZES, Scope, Site, Source, Subject};
use sizes::{SizedType, size_at, type_at};
use splits::{first_split, next_split};
use type_rows::{bind_fields, named_sizes};

// An expression.
#[cycle(sizing)]
pub fn expr(
    source: &Source,
    instances: &mut Instances,
    scope: &mut Scope,
    p: Site,
) -> Result<Checked, RefusalAt>
    requires { Room p.place.levels p }
    ensures sized { Sizes ExprPart (lent_by source.now) (buffers_of instances.old scope.old) p result (buffers_of instances.new scope.new) }
    ensures same_list { SameList instances.old instances.new }
{
    let here = p.place;
    if here.levels == 0 {
        return Err(RefusalAt {
            refusal: Refusal::OutsideLimits,
            frame: here.line + 1,
        });
    }
    let at = here.at;
    let line = frame_line(source.text, source.index, here.line);
    let h = head_at(line, at);
    let form = h.form;
    let next = h.next;
    let q = down(p, next);
    match form {
        Form::Bool(_) => leaf(SizedType::Bool, one_cell(), q),
        Form::Int(_) => leaf(SizedType::Int, one_cell(), q),
        Form::Variable(v) => leaf(type_in(&scope.types, v as usize), nothing(), q),
        Form::Now(c) => leaf(channel_type(source.index, c), nothing(), q),
        Form::Last(c) => leaf(channel_type(source.index, c), nothing(), q),
        _ => compound(source, instances, scope, q, form),
    }
}

// `15` to `1C`; p stands behind the head.
#[cycle(sizing)]
fn compound(
    source: &Source,
    instances: &mut Instances,
    scope: &mut Scope,
    p: Site,
    form: Form,
) -> Result<Checked, RefusalAt>
    requires room { Room (suc p.place.levels) p }
    requires operands { Operands form }
    ensures sized { Sizes (CompoundPart form) (lent_by source.now) (buffers_of instances.old scope.old) p result (buffers_of instances.new scope.new) }
    ensures same_list { SameList instances.old instances.new }
{
    let here = p.place;
    match form {
        Form::Let => binding(source, instances, scope, p),
        Form::If => choice(source, instances, scope, p),
        Form::Operator(o) => { operation(source, instances, scope, p, o) }
        Form::Call(f) => call(source, instances, scope, p, f),
        Form::Construct(t, c) => { construct(source, instances, scope, p, t, c) }
        Form::Case(t) => case_of(source, instances, scope, p, t),
        Form::Adjust => adjust(source, instances, scope, p),
        Form::Fit(k) => fit(source, instances, scope, p, k),
        _ => Err(RefusalAt {
            refusal: Refusal::BadCode,
            frame: here.line + 1,
        }),
    }
}

// `15`: a let.
#[cycle(sizing)]
fn binding(
    source: &Source,
    instances: &mut Instances,
    scope: &mut Scope,
    p: Site,
) -> Result<Checked, RefusalAt>
    requires { Room (suc p.place.levels) p }
    ensures sized { Sizes LetPart (lent_by source.now) (buffers_of instances.old scope.old) p result (buffers_of instances.new scope.new) }
    ensures same_list { SameList instances.old instances.new }
{
    let here = p.place;
    let a = expr(source, instances, scope, p)?;
    put(&mut scope.types, here.variables as usize, type_word(a));
    let q = widen(behind(p, a), 1, 0);
    let b = expr(source, instances, scope, q)?;
    with_let(a, b)
}

// `16`: an if, whose arms agree.
#[cycle(sizing)]
fn choice(
    source: &Source,
    instances: &mut Instances,
    scope: &mut Scope,
    p: Site,
) -> Result<Checked, RefusalAt>
    requires { Room (suc p.place.levels) p }
    ensures sized { Sizes IfPart (lent_by source.now) (buffers_of instances.old scope.old) p result (buffers_of instances.new scope.new) }
    ensures same_list { SameList instances.old instances.new }
{
    let here = p.place;
    let a = expr(source, instances, scope, p)?;
    let q = behind(p, a);
    let b = expr(source, instances, scope, q)?;
    let r = behind(p, b);
    let d = expr(source, instances, scope, r)?;
    if !agree(d, b) {
        return Err(RefusalAt {
            refusal: Refusal::SizesDisagree,
            frame: here.line + 1,
        });
    }
    chosen(a, b, d)
}

// `17`: an operator and its operands.
#[cycle(sizing)]
fn operation(
    source: &Source,
    instances: &mut Instances,
    scope: &mut Scope,
    p: Site,
    o: u32,
) -> Result<Checked, RefusalAt>
    requires { Room (suc p.place.levels) p }
    ensures sized { Sizes (OpPart o) (lent_by source.now) (buffers_of instances.old scope.old) p result (buffers_of instances.new scope.new) }
    ensures same_list { SameList instances.old instances.new }
{
    let a = expr(source, instances, scope, p)?;
    let q = behind(p, a);
    let b = expr(source, instances, scope, q)?;
    operated(o, a, b)
}

// Arguments or fields, n of them; the words of their types go into a row. A variable's word is taken over from the scope.
#[cycle(sizing)]
fn several(
    source: &Source,
    instances: &mut Instances,
    scope: &mut Scope,
    p: Site,
    row: &mut [u32],
    n: u32,
) -> Result<Counted, RefusalAt>
    requires { Room (suc p.place.levels) p × (n < byte_range) }
    ensures sized { SizesAll (lent_by source.now) (buffers_of instances.old scope.old) p n row.old result (buffers_of instances.new scope.new) row.new }
    ensures same_list { SameList instances.old instances.new }
{
    let here = p.place;
    let line = frame_line(source.text, source.index, here.line);
    let mut all = none_at(p);
    for i in 0..n {
        let at = all.next;
        match variable_at(line, at) {
            Some(found) => {
                put(row, i as usize, word_at(&scope.types, found.value as usize));
                all = passed(all, found.next);
            }
            None => {
                let q = moved_on(p, at, all.used);
                let a = expr(source, instances, scope, q)?;
                put(row, i as usize, type_word(a));
                all = joined(all, a);
            }
        }
    }
    Ok(all)
}

// `18`: a call and its arguments, which are the scope of its body.
#[cycle(sizing)]
fn call(
    source: &Source,
    instances: &mut Instances,
    scope: &mut Scope,
    p: Site,
    f: u32,
) -> Result<Checked, RefusalAt>
    requires room { Room (suc p.place.levels) p }
    requires f_lt_byte_range { f < byte_range }
    ensures sized { Sizes (CallPart f) (lent_by source.now) (buffers_of instances.old scope.old) p result (buffers_of instances.new scope.new) }
    ensures same_list { SameList instances.old instances.new }
{
    let n = arity(source.index, f);
    let mut inner = Scope {
        types: [0; SCOPE_WORDS],
        sizes: [0; SCOPE_SIZES],
    };
    let a = several(source, instances, scope, p, &mut inner.types, n)?;
    apply(source, instances, &mut inner, p, a, f, n)
}

// A call whose n arguments were checked: their types, which scope holds, and the sizes of the named ones, which are put over zeros,
// are the scope of its body.
#[cycle(sizing)]
fn apply(
    source: &Source,
    instances: &mut Instances,
    scope: &mut Scope,
    p: Site,
    a: Counted,
    f: u32,
    n: u32,
) -> Result<Checked, RefusalAt>
    requires room { Room (suc p.place.levels) p }
    requires used_le_used { (p.used ≤ a.used) × ((f < byte_range) × (n < byte_range)) }
    ensures sized { Applies f n a (lent_by source.now) (table_of instances.old) scope.old.types p result (table_of instances.new) }
    ensures same_list { SameList instances.old instances.new }
{
    scope.sizes = [0; SCOPE_SIZES];
    let m = named_sizes(&scope.types, n, &mut scope.sizes);
    let next = a.next;
    let q = moved_on(p, next, a.used);
    let b = enter(source, instances, scope, q, f, n, m)?;
    called(n, a, b)
}

// A call of an instance that was entered before, record i. It stands by itself, since in the cycle one call cannot read two fields behind
// a `&mut`.
fn known(
    source: &Source,
    instances: &Instances,
    sizes: &[u8; SCOPE_SIZES],
    p: Site,
    f: u32,
    i: u32,
) -> Result<Checked, RefusalAt>
    requires { p.place.line < 2 ^ 16 }
    ensures { Again source.now.text.now source.now.index.now (table instances.now.list.now instances.now.memo.now) sizes.now p f i result }
{
    again(source, instances.list, instances.memo, sizes, p, f, i)
}

// The numbers of the instance of f at these sizes: those found in the list, or of its body.
#[cycle(sizing)]
fn enter(
    source: &Source,
    instances: &mut Instances,
    scope: &mut Scope,
    p: Site,
    f: u32,
    n: u32,
    m: u32,
) -> Result<Checked, RefusalAt>
    requires room { Room (suc p.place.levels) p }
    requires f_lt_byte_range { (f < byte_range) × ((n < byte_range) × (m ≤ n)) }
    ensures sized { Enters f n m (lent_by source.now) (buffers_of instances.old scope.old) p result (buffers_of instances.new scope.new) }
    ensures same_list { SameList instances.old instances.new }
{
    let Some(i) = instances.find(p.used, f, &scope.sizes) else {
        return enter_new(source, instances, scope, p, f, n, m);
    };
    known(source, instances, &scope.sizes, p, f, i)
}

// An instance that was not entered before: what is tested before its body, and the body.
#[cycle(sizing)]
fn enter_new(
    source: &Source,
    instances: &mut Instances,
    scope: &mut Scope,
    p: Site,
    f: u32,
    n: u32,
    m: u32,
) -> Result<Checked, RefusalAt>
    requires room { Room (suc p.place.levels) p }
    requires f_lt_byte_range { (f < byte_range) × ((n < byte_range) × (m ≤ n)) }
    ensures sized { EntersNew f n m (lent_by source.now) (buffers_of instances.old scope.old) p result (buffers_of instances.new scope.new) }
    ensures same_list { SameList instances.old instances.new }
{
    let e = prepare(source, &scope.sizes, p, f, n, m)?;
    body(source, instances, scope, p, e)
}

// A body entered for the first time at its sizes: its record is added on entry, and filled in when it has been checked.
#[cycle(sizing)]
fn body(
    source: &Source,
    instances: &mut Instances,
    scope: &mut Scope,
    p: Site,
    e: Entry,
) -> Result<Checked, RefusalAt>
    requires room { Room (suc p.place.levels) p }
    requires entered { Entered e }
    ensures sized { ChecksBody e (lent_by source.now) (buffers_of instances.old scope.old) p result (buffers_of instances.new scope.new) }
    ensures same_list { SameList instances.old instances.new }
{
    let here = p.place;
    if INSTANCES_MOST <= p.used as usize {
        return Err(RefusalAt {
            refusal: Refusal::TooManyInstances,
            frame: here.line + 1,
        });
    }
    let ty = e.ty;
    add(
        instances.list,
        instances.memo,
        p.used,
        e.function,
        &scope.sizes,
        u32::from(ty),
    );
    let q = body_site(source.index, p, e);
    let a = expr(source, instances, scope, q)?;
    if !is_type(a, ty) {
        let inner = q.place;
        return Err(RefusalAt {
            refusal: Refusal::SizesDisagree,
            frame: inner.line + 1,
        });
    }
    let numbers = a.numbers;
    finish(instances.list, p.used, numbers);
    let at = here.at;
    leaf(ty, numbers, moved_on(p, at, a.used))
}

// `19`: a constructor and its fields.
#[cycle(sizing)]
fn construct(
    source: &Source,
    instances: &mut Instances,
    scope: &mut Scope,
    p: Site,
    t: u32,
    c: u32,
) -> Result<Checked, RefusalAt>
    requires room { Room (suc p.place.levels) p }
    requires t_lt_byte_range { (t < byte_range) × (c < byte_range) }
    ensures sized { Sizes (ConPart t c) (lent_by source.now) (buffers_of instances.old scope.old) p result (buffers_of instances.new scope.new) }
    ensures same_list { SameList instances.old instances.new }
{
    let n = fields(source.index, t, c);
    let mut row = [0u32; FIELDS_MOST];
    let a = several(source, instances, scope, p, &mut row, n)?;
    made(source.index, &row, p, a, t, c)
}

// `1A`: a case over type t: its subject, its return type, its branches.
#[cycle(sizing)]
fn case_of(
    source: &Source,
    instances: &mut Instances,
    scope: &mut Scope,
    p: Site,
    t: u32,
) -> Result<Checked, RefusalAt>
    requires room { Room (suc p.place.levels) p }
    requires t_lt_byte_range { t < byte_range }
    ensures sized { Sizes (CasePart t) (lent_by source.now) (buffers_of instances.old scope.old) p result (buffers_of instances.new scope.new) }
    ensures same_list { SameList instances.old instances.new }
{
    let here = p.place;
    let a = expr(source, instances, scope, p)?;
    let ty = a.ty;
    let SizedType::Named(_, m) = ty else {
        return Err(RefusalAt {
            refusal: Refusal::TypesDisagree,
            frame: here.line + 1,
        });
    };
    let written = a.next;
    let line = frame_line(source.text, source.index, here.line);
    let Some(wanted) = type_at(line, written, &scope.sizes) else {
        return Err(RefusalAt {
            refusal: Refusal::SizeOutside,
            frame: here.line + 1,
        });
    };
    let s = subject(t, m, wanted.ty);
    let q = moved_on(p, wanted.next, a.used);
    let b = branches(source, instances, scope, q, s, 0)?;
    cased(a, b)
}

// The branches of a case from constructor k on.
#[cycle(sizing)]
fn branches(
    source: &Source,
    instances: &mut Instances,
    scope: &mut Scope,
    p: Site,
    s: Subject,
    k: u32,
) -> Result<Checked, RefusalAt>
    requires room { Room (suc p.place.levels) p }
    requires of_lt_byte_range { (s.of < byte_range) × (k ≤ byte_range) }
    ensures sized { SizesBranches s k (lent_by source.now) (buffers_of instances.old scope.old) p result (buffers_of instances.new scope.new) }
    ensures same_list { SameList instances.old instances.new }
{
    if constructors(source.index, s.of) <= k {
        let ty = s.ty;
        return leaf(ty, nothing(), p);
    }
    let a = branch(source, instances, scope, p, s, k)?;
    let q = behind(p, a);
    let j = k + 1;
    let b = branches(source, instances, scope, q, s, j)?;
    branched(a, b)
}

// One branch: it is skipped where the subject is too small for its constructor, else checked for every split.
#[cycle(sizing)]
fn branch(
    source: &Source,
    instances: &mut Instances,
    scope: &mut Scope,
    p: Site,
    s: Subject,
    k: u32,
) -> Result<Checked, RefusalAt>
    requires room { Room (suc p.place.levels) p }
    requires of_lt_byte_range { (s.of < byte_range) × (k < byte_range) }
    ensures sized { SizesBranch s k (lent_by source.now) (buffers_of instances.old scope.old) p result (buffers_of instances.new scope.new) }
    ensures same_list { SameList instances.old instances.new }
{
    let here = p.place;
    let own = own_fields(source.index, s.of, k);
    let m = s.size;
    if (m as u32) <= own {
        let at = here.at;
        let ty = s.ty;
        let line = frame_line(source.text, source.index, here.line);
        let next = skip(line, source.index, at, here.levels);
        return leaf(ty, nothing(), moved_on(p, next, p.used));
    }
    first_split(&mut scope.sizes, p.sizes as usize, own, m - 1);
    at_splits(source, instances, scope, p, s, k)
}

// A branch for every split from the one on that stands among the sizes.
#[cycle(sizing)]
fn at_splits(
    source: &Source,
    instances: &mut Instances,
    scope: &mut Scope,
    p: Site,
    s: Subject,
    k: u32,
) -> Result<Checked, RefusalAt>
    requires room { Room (suc p.place.levels) p }
    requires of_lt_byte_range { (s.of < byte_range) × (k < byte_range) }
    ensures sized { SizesSplits s k (lent_by source.now) (buffers_of instances.old scope.old) p result (buffers_of instances.new scope.new) }
    ensures same_list { SameList instances.old instances.new }
{
    let here = p.place;
    let n = fields(source.index, s.of, k);
    let own = own_fields(source.index, s.of, k);
    let at = here.at;
    let ty = s.ty;
    let mut all = nothing_yet(ty, p);
    let mut more = true;
    // The next split is made in place, among the sizes in scope: an iterator would hold these while the branch is checked.
    while more {
        bind_fields(
            source.index,
            &mut scope.types,
            &scope.sizes,
            s.of,
            k,
            here.variables,
            p.sizes,
        );
        let q = widen(moved_on(p, at, all.used), n, own);
        let a = expr(source, instances, scope, q)?;
        if !is_type(a, ty) {
            return Err(RefusalAt {
                refusal: Refusal::SizesDisagree,
                frame: here.line + 1,
            });
        }
        all = larger(all, a);
        more = next_split(&mut scope.sizes, p.sizes as usize, own);
    }
    slotted(n, all)
}

// `1B`: a written size, and the expression that it adjusts, which never lowers.
#[cycle(sizing)]
fn adjust(
    source: &Source,
    instances: &mut Instances,
    scope: &mut Scope,
    p: Site,
) -> Result<Checked, RefusalAt>
    requires { Room (suc p.place.levels) p }
    ensures sized { Sizes AdjPart (lent_by source.now) (buffers_of instances.old scope.old) p result (buffers_of instances.new scope.new) }
    ensures same_list { SameList instances.old instances.new }
{
    let here = p.place;
    let at = here.at;
    let line = frame_line(source.text, source.index, here.line);
    let Some(s) = size_at(line, at, &scope.sizes) else {
        return Err(RefusalAt {
            refusal: Refusal::SizeOutside,
            frame: here.line + 1,
        });
    };
    let q = moved_on(p, s.next, p.used);
    let a = expr(source, instances, scope, q)?;
    let ty = a.ty;
    let SizedType::Named(t, j) = ty else {
        return Err(RefusalAt {
            refusal: Refusal::TypesDisagree,
            frame: here.line + 1,
        });
    };
    let k = s.size;
    if k < j {
        return Err(RefusalAt {
            refusal: Refusal::SizesDisagree,
            frame: here.line + 1,
        });
    }
    adjusted(t, k, a)
}

// `1C`: a fit: the subject, the arm where it fits with a variable of size k, the other arm.
#[cycle(sizing)]
fn fit(
    source: &Source,
    instances: &mut Instances,
    scope: &mut Scope,
    p: Site,
    k: u32,
) -> Result<Checked, RefusalAt>
    requires { Room (suc p.place.levels) p × (k < byte_range) }
    ensures sized { Sizes (FitPart k) (lent_by source.now) (buffers_of instances.old scope.old) p result (buffers_of instances.new scope.new) }
    ensures same_list { SameList instances.old instances.new }
{
    let here = p.place;
    let a = expr(source, instances, scope, p)?;
    let ty = a.ty;
    let SizedType::Named(t, _) = ty else {
        return Err(RefusalAt {
            refusal: Refusal::TypesDisagree,
            frame: here.line + 1,
        });
    };
    let word = u32::from(SizedType::Named(t, k as u8));
    put(&mut scope.types, here.variables as usize, word);
    let q = widen(behind(p, a), 1, 0);
    let b = expr(source, instances, scope, q)?;
    let r = behind(p, b);
    let d = expr(source, instances, scope, r)?;
    if !agree(d, b) {
        return Err(RefusalAt {
            refusal: Refusal::SizesDisagree,
            frame: here.line + 1,
        });
    }
    fitted(a, b, d)
}

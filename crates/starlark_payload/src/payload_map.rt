//! Payload maps.

ghost use Rattle.std.specs.Prelude.{◌≡◌, ℕ, List, IfOk, IsOk, OnErr, flat_map, string_bytes};
ghost use Rattle.starlark_place.specs.Place.{Extent};
ghost use Rattle.starlark_ast.specs.View.{comma_at, ident_at, load_view, symbols, text_at};
ghost use Rattle.starlark_payload.specs.Kept.{SameSymbol};
ghost use Rattle.starlark_payload.specs.Payloads.{Answers, Begins, Payload, assigned_payloads, gives, ident_payloads, load_arg_payloads, load_payloads};

use starlark_ast::ast::{
    AssignIdentP, AstAssignIdentP, AstIdentP, AstPayload, IdentP, LoadArgP, LoadP,
};
use starlark_place::pos::Spanned;
use std::alloc::{AllocError, Global};

/// What a map makes of each payload. It may keep a state: the relations lead from the state before a call to that behind
/// it.
pub trait AstPayloadFunction<A: AstPayload, B: AstPayload> {
    ghost gives_load: { Self → List ℕ → A.LoadPayload → B.LoadPayload → Self → Type 0 };

    ghost gives_ident: { Self → A.IdentPayload → B.IdentPayload → Self → Type 0 };

    ghost gives_ident_assign: { Self → A.IdentAssignPayload → B.IdentAssignPayload → Self → Type 0 };

    ghost gives_def: { Self → A.DefPayload → B.DefPayload → Self → Type 0 };

    ghost gives_type_expr: { Self → A.TypeExprPayload → B.TypeExprPayload → Self → Type 0 };

    /// The path is that of the load's module.
    fn map_load(&mut self, import_path: &str, a: A::LoadPayload) -> B::LoadPayload
        ensures { gives_load self.old import_path.now a result self.new };

    fn map_ident(&mut self, a: A::IdentPayload) -> B::IdentPayload
        ensures { gives_ident self.old a result self.new };

    fn map_ident_assign(&mut self, a: A::IdentAssignPayload) -> B::IdentAssignPayload
        ensures { gives_ident_assign self.old a result self.new };

    fn map_def(&mut self, a: A::DefPayload) -> B::DefPayload
        ensures { gives_def self.old a result self.new };

    fn map_type_expr(&mut self, a: A::TypeExprPayload) -> B::TypeExprPayload
        ensures { gives_type_expr self.old a result self.new };
}

/// A tree whose payloads can be mapped.
pub trait IntoMapPayload<A: AstPayload, B: AstPayload> {
    /// The same tree with the other payloads.
    type Mapped;

    /// What stays: all but payloads.
    ghost keeps: { Self → Self.Mapped → Type 0 };

    ghost payloads: { Self → List (Payload A.LoadPayload A.IdentPayload A.IdentAssignPayload A.DefPayload A.TypeExprPayload) };

    ghost mapped_payloads: { Self.Mapped → List (Payload B.LoadPayload B.IdentPayload B.IdentAssignPayload B.DefPayload B.TypeExprPayload) };

    /// The same tree with what the function makes of each payload, from the first to the last (docs/LANGUAGE.md,
    /// Payloads). Where memory runs out the tree is dropped, and the function was called on the first payloads alone.
    fn into_map_payload<F: AstPayloadFunction<A, B>>(
        self,
        alloc: Global,
        f: &mut F,
    ) -> Result<Self::Mapped, AllocError>
        ensures kept { IfOk result (λ y. keeps self y) }
        ensures called { IfOk result (λ y. Answers (gives F.gives_load F.gives_ident F.gives_ident_assign F.gives_def F.gives_type_expr) f.old (payloads self) f.new (mapped_payloads y)) }
        ensures stopped { OnErr result (Begins (gives F.gives_load F.gives_ident F.gives_ident_assign F.gives_def F.gives_type_expr) f.old (payloads self) f.new) };
}

/// An identifier that is read.
pub(crate) fn ident<A: AstPayload, B: AstPayload, F: AstPayloadFunction<A, B>>(
    x: IdentP<A>,
    f: &mut F,
) -> IdentP<B>
    ensures kept { string_bytes result.ident ≡ string_bytes x.ident }
    ensures called { Answers (gives F.gives_load F.gives_ident F.gives_ident_assign F.gives_def F.gives_type_expr) f.old (ident_payloads x) f.new (ident_payloads result) }
{
    let IdentP { ident, payload } = x;
    let payload = f.map_ident(payload);
    IdentP { ident, payload }
}

/// An identifier that is assigned.
pub(crate) fn assign_ident<A: AstPayload, B: AstPayload, F: AstPayloadFunction<A, B>>(
    x: AssignIdentP<A>,
    f: &mut F,
) -> AssignIdentP<B>
    ensures kept { string_bytes result.ident ≡ string_bytes x.ident }
    ensures called { Answers (gives F.gives_load F.gives_ident F.gives_ident_assign F.gives_def F.gives_type_expr) f.old (assigned_payloads x) f.new (assigned_payloads result) }
{
    let AssignIdentP { ident, payload } = x;
    let payload = f.map_ident_assign(payload);
    AssignIdentP { ident, payload }
}

/// A symbol of a load.
fn load_arg<A: AstPayload, B: AstPayload, F: AstPayloadFunction<A, B>>(
    x: LoadArgP<A>,
    f: &mut F,
) -> LoadArgP<B>
    ensures local { ident_at result.local ≡ ident_at x.local }
    ensures their { text_at result.their ≡ text_at x.their }
    ensures comma { comma_at result.comma ≡ comma_at x.comma }
    ensures called { Answers (gives F.gives_load F.gives_ident F.gives_ident_assign F.gives_def F.gives_type_expr) f.old (load_arg_payloads x) f.new (load_arg_payloads result) }
{
    let LoadArgP {
        local,
        their,
        comma,
    } = x;
    let Spanned { span, node } = local;
    let node = assign_ident(node, f);
    LoadArgP {
        local: Spanned { span, node },
        their,
        comma,
    }
}

/// What a load binds.
fn load_args<A: AstPayload, B: AstPayload, F: AstPayloadFunction<A, B>>(
    xs: Vec<LoadArgP<A>>,
    alloc: Global,
    f: &mut F,
) -> Result<Vec<LoadArgP<B>>, AllocError>
    ensures kept { IfOk result (λ ys. symbols ys.items ≡ symbols xs.items) }
    ensures called { IfOk result (λ ys. Answers (gives F.gives_load F.gives_ident F.gives_ident_assign F.gives_def F.gives_type_expr) f.old (flat_map load_arg_payloads xs.items) f.new (flat_map load_arg_payloads ys.items)) }
    ensures stopped { OnErr result (Begins (gives F.gives_load F.gives_ident F.gives_ident_assign F.gives_def F.gives_type_expr) f.old (flat_map load_arg_payloads xs.items) f.new) }
{
    let mut rest = xs;
    rest.reverse();
    let mut done = Vec::new(alloc);
    while let Some(x) = rest.pop() {
        let x = load_arg(x, f);
        done.push(x)?;
    }
    Ok(done)
}

impl<A: AstPayload, B: AstPayload> IntoMapPayload<A, B> for IdentP<A> {
    type Mapped = IdentP<B>;

    ghost keeps = { λ x y. string_bytes y.ident ≡ string_bytes x.ident };

    ghost payloads = { ident_payloads };

    ghost mapped_payloads = { ident_payloads };

    /// It takes no memory.
    fn into_map_payload<F: AstPayloadFunction<A, B>>(
        self,
        _alloc: Global,
        f: &mut F,
    ) -> Result<IdentP<B>, AllocError>
        ensures taken { IsOk result }
        ensures kept { IfOk result (λ y. string_bytes y.ident ≡ string_bytes self.ident) }
        ensures called { IfOk result (λ y. Answers (gives F.gives_load F.gives_ident F.gives_ident_assign F.gives_def F.gives_type_expr) f.old (ident_payloads self) f.new (ident_payloads y)) }
        ensures stopped { OnErr result (Begins (gives F.gives_load F.gives_ident F.gives_ident_assign F.gives_def F.gives_type_expr) f.old (ident_payloads self) f.new) }
    {
        Ok(ident(self, f))
    }
}

impl<A: AstPayload, B: AstPayload> IntoMapPayload<A, B> for AssignIdentP<A> {
    type Mapped = AssignIdentP<B>;

    ghost keeps = { λ x y. string_bytes y.ident ≡ string_bytes x.ident };

    ghost payloads = { assigned_payloads };

    ghost mapped_payloads = { assigned_payloads };

    /// It takes no memory.
    fn into_map_payload<F: AstPayloadFunction<A, B>>(
        self,
        _alloc: Global,
        f: &mut F,
    ) -> Result<AssignIdentP<B>, AllocError>
        ensures taken { IsOk result }
        ensures kept { IfOk result (λ y. string_bytes y.ident ≡ string_bytes self.ident) }
        ensures called { IfOk result (λ y. Answers (gives F.gives_load F.gives_ident F.gives_ident_assign F.gives_def F.gives_type_expr) f.old (assigned_payloads self) f.new (assigned_payloads y)) }
        ensures stopped { OnErr result (Begins (gives F.gives_load F.gives_ident F.gives_ident_assign F.gives_def F.gives_type_expr) f.old (assigned_payloads self) f.new) }
    {
        Ok(assign_ident(self, f))
    }
}

impl<A: AstPayload, B: AstPayload> IntoMapPayload<A, B> for LoadArgP<A> {
    ghost use Rattle.starlark_payload.specs.Kept.{SameSymbol};

    type Mapped = LoadArgP<B>;

    ghost keeps = { SameSymbol };

    ghost payloads = { load_arg_payloads };

    ghost mapped_payloads = { load_arg_payloads };

    /// It takes no memory.
    fn into_map_payload<F: AstPayloadFunction<A, B>>(
        self,
        _alloc: Global,
        f: &mut F,
    ) -> Result<LoadArgP<B>, AllocError>
        ensures taken { IsOk result }
        ensures kept { IfOk result (λ y. SameSymbol self y) }
        ensures called { IfOk result (λ y. Answers (gives F.gives_load F.gives_ident F.gives_ident_assign F.gives_def F.gives_type_expr) f.old (load_arg_payloads self) f.new (load_arg_payloads y)) }
        ensures stopped { OnErr result (Begins (gives F.gives_load F.gives_ident F.gives_ident_assign F.gives_def F.gives_type_expr) f.old (load_arg_payloads self) f.new) }
    {
        Ok(load_arg(self, f))
    }
}

impl<A: AstPayload, B: AstPayload> IntoMapPayload<A, B> for LoadP<A> {
    type Mapped = LoadP<B>;

    ghost keeps = { λ x y. (s : Extent) → load_view y s ≡ load_view x s };

    ghost payloads = { load_payloads };

    ghost mapped_payloads = { load_payloads };

    fn into_map_payload<F: AstPayloadFunction<A, B>>(
        self,
        alloc: Global,
        f: &mut F,
    ) -> Result<LoadP<B>, AllocError>
        ensures kept { IfOk result (λ y. (s : Extent) → load_view y s ≡ load_view self s) }
        ensures called { IfOk result (λ y. Answers (gives F.gives_load F.gives_ident F.gives_ident_assign F.gives_def F.gives_type_expr) f.old (load_payloads self) f.new (load_payloads y)) }
        ensures stopped { OnErr result (Begins (gives F.gives_load F.gives_ident F.gives_ident_assign F.gives_def F.gives_type_expr) f.old (load_payloads self) f.new) }
    {
        let LoadP {
            module,
            args,
            payload,
        } = self;
        let payload = f.map_load(module.node.as_str(), payload);
        let args = load_args(args, alloc, f)?;
        Ok(LoadP {
            module,
            args,
            payload,
        })
    }
}

/// `into_map_payload` of an identifier that is read, at its place.
pub trait IdentPExt<A: AstPayload> {
    ghost name: { Self → List ℕ };

    ghost place: { Self → Extent };

    ghost payloads: { Self → List (Payload A.LoadPayload A.IdentPayload A.IdentAssignPayload A.DefPayload A.TypeExprPayload) };

    /// The same at the same place, as `IntoMapPayload` says. It takes no memory.
    fn into_map_payload<B: AstPayload, F: AstPayloadFunction<A, B>>(
        self,
        alloc: Global,
        f: &mut F,
    ) -> Result<AstIdentP<B>, AllocError>
        ensures taken { IsOk result }
        ensures kept { IfOk result (λ y. string_bytes y.node.ident ≡ name self) }
        ensures placed { IfOk result (λ y. y.span ≡ place self) }
        ensures called { IfOk result (λ y. Answers (gives F.gives_load F.gives_ident F.gives_ident_assign F.gives_def F.gives_type_expr) f.old (payloads self) f.new (ident_payloads y.node)) };
}

impl<A: AstPayload> IdentPExt<A> for AstIdentP<A> {
    ghost name = { λ x. string_bytes x.node.ident };

    ghost place = { λ x. x.span };

    ghost payloads = { λ x. ident_payloads x.node };

    fn into_map_payload<B: AstPayload, F: AstPayloadFunction<A, B>>(
        self,
        _alloc: Global,
        f: &mut F,
    ) -> Result<AstIdentP<B>, AllocError> {
        let Spanned { span, node } = self;
        let node = ident(node, f);
        Ok(Spanned { span, node })
    }
}

/// `into_map_payload` of an identifier that is assigned, at its place.
pub trait AssignIdentPExt<A: AstPayload> {
    ghost name: { Self → List ℕ };

    ghost place: { Self → Extent };

    ghost payloads: { Self → List (Payload A.LoadPayload A.IdentPayload A.IdentAssignPayload A.DefPayload A.TypeExprPayload) };

    /// The same at the same place, as `IntoMapPayload` says. It takes no memory.
    fn into_map_payload<B: AstPayload, F: AstPayloadFunction<A, B>>(
        self,
        alloc: Global,
        f: &mut F,
    ) -> Result<AstAssignIdentP<B>, AllocError>
        ensures taken { IsOk result }
        ensures kept { IfOk result (λ y. string_bytes y.node.ident ≡ name self) }
        ensures placed { IfOk result (λ y. y.span ≡ place self) }
        ensures called { IfOk result (λ y. Answers (gives F.gives_load F.gives_ident F.gives_ident_assign F.gives_def F.gives_type_expr) f.old (payloads self) f.new (assigned_payloads y.node)) };
}

impl<A: AstPayload> AssignIdentPExt<A> for AstAssignIdentP<A> {
    ghost name = { λ x. string_bytes x.node.ident };

    ghost place = { λ x. x.span };

    ghost payloads = { λ x. assigned_payloads x.node };

    fn into_map_payload<B: AstPayload, F: AstPayloadFunction<A, B>>(
        self,
        _alloc: Global,
        f: &mut F,
    ) -> Result<AstAssignIdentP<B>, AllocError> {
        let Spanned { span, node } = self;
        let node = assign_ident(node, f);
        Ok(Spanned { span, node })
    }
}

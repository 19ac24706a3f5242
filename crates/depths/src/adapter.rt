// The adapters by their names.
ghost use Rattle.depths.specs.Nested.{name_of};
ghost use Rattle.depths.specs.declared.adapter.Adapter.{Adapter};
ghost use Rattle.std.specs.Prelude.{◌≡◌, IfSome, Some};

// An adapter to be nested.
#[derive(Clone, Copy)]
pub(crate) enum Adapter {
    Slice,
    Splitter,
    Converter,
}

// The adapter that has a name.
pub(crate) fn named(name: &str) -> Option<Adapter>
    ensures one { (adapter : Adapter) → name.now ≡ name_of adapter → result ≡ Some adapter }
    ensures its { IfSome result (λ adapter. name.now ≡ name_of adapter) }
{
    match name {
        "slice" => Some(Adapter::Slice),
        "splitter" => Some(Adapter::Splitter),
        "converter" => Some(Adapter::Converter),
        _ => None,
    }
}

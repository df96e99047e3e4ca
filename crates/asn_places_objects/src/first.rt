//! What a definition or a class's field begins with.

ghost use Rattle.asn_meaning_heads.specs.Places.{shown_place};
ghost use Rattle.asn_names_index.specs.Classes.{shown_class};
ghost use Rattle.asn_meaning.specs.Accepts.{place};
ghost use Rattle.asn_meaning.specs.Definitions.{type_identifier};
ghost use Rattle.asn_meaning.specs.Objects.{field_of};
ghost use Rattle.asn_needs.specs.Dummies.{class_in_scope};
ghost use Rattle.asn_needs.specs.Sites.{AnObjectSet, AtHeadOfField, ClassField, ClassName, OfField, ToField, beside};
ghost use Rattle.asn_needs.specs.Stands.{class_link_name, dummies_of, first_sites, information_forms, node_sites, outermost, own_scope};
ghost use Rattle.asn_places_objects.specs.Nodes.{shown_node};
ghost use Rattle.asn_places_objects.specs.inner.Beginning.{all_beside, around_own, begun_with, named_by, type_forms, value_forms};
ghost use Rattle.asn_places_types.specs.Forms.{shown_field};
ghost use Rattle.asn_places_types.specs.Sites.{shown_around, shown_sites};
ghost use Rattle.asn_tree.specs.declared.objects.ASN1Information.TheVariants.{Object, ObjectSet};
ghost use Rattle.std.specs.Option.{option_copied, option_map};
ghost use Rattle.std.specs.Prelude.{◌≡◌, ◌++◌, ◌∷◌, [], IfOk, None, map};

use asn_meaning_dummies::class_in_scope;
use asn_meaning_heads::{Place, Scope, TypeForm, ValueForm, written_field};
use asn_memory::{Box, List, Mem, Text};
use asn_names_index::{Class, Names};
use asn_places_types::{
    Around, ClassFieldForm, Form, SetForm, Site, TypePlace, ValuePlace, filled, outermost,
    scope_in, with_dummies, with_site,
};
use asn_tree::{
    ASN1Information, ASN1Type, ClassLink, InformationObject, InformationObjectClass, ObjectSet,
    Parameterization, ParameterizationArgument, ToplevelDefinition, ToplevelInformationDefinition,
    ToplevelTypeDefinition, ToplevelValueDefinition,
};
use std::alloc::Global;
use std::rc::Rc;

/// A definition, by its name, or a field of a class, by the class's name and its own with its `&`.
#[derive(Clone, Copy)]
pub enum Node<'n> {
    ToDefinition(&'n str),
    ToField(&'n str, &'n str),
}

/// The dummies of a template; none where it is none.
fn dummies_of<'a>(template: &'a Option<Parameterization>) -> &'a [ParameterizationArgument]
    ensures { result.now ≡ dummies_of template.now }
{
    match template {
        None => &[],
        Some(template) => template.parameters.as_slice(),
    }
}

/// What surrounds a definition with these parameters: the empty scope, or a template's dummies without arguments.
///
/// Err: want of memory.
fn around_own<'a>(alloc: Global, template: &'a Option<Parameterization>) -> Mem<Rc<Around<'a>>>
    ensures { IfOk result (λ around. shown_around around.value ≡ around_own template.now) }
{
    let scope = filled(alloc, &Scope::Empty, dummies_of(template), &[])?;
    let around = outermost(alloc, scope)?;
    Ok(around)
}

/// A type of a tree in the scope of these surroundings, on the heap.
///
/// Err: want of memory.
fn governor_here<'a>(
    alloc: Global,
    around: &Rc<Around<'a>>,
    ty: &'a ASN1Type,
) -> Mem<Box<Place<'a>>>
    ensures { IfOk result (λ governor. shown_place governor ≡ place (shown_around around.now.value).scope ty.now) }
{
    let scope = scope_in(around).copy(alloc)?;
    let ty = TypeForm::Written(ty);
    let place = Box::new(alloc, Place { scope, ty })?;
    Ok(place)
}

/// The sites with the type and the value of a definition.
///
/// Err: want of memory.
#[tactic(auto, using(asn_places_types::proofs::Adding::then_cons))]
fn with_value<'a>(
    alloc: Global,
    sites: List<Site<'a>>,
    around: &Rc<Around<'a>>,
    definition: &'a ToplevelValueDefinition,
) -> Mem<List<Site<'a>>>
    ensures { IfOk result (λ more. shown_sites more ≡ shown_sites sites.entry ++ all_beside (shown_around around.now.value) (value_forms (shown_around around.now.value).scope definition.now)) }
{
    let ty = TypeForm::Written(&definition.associated_type);
    let sites = with_site(sites, around, Form::AType(TypePlace::AtHead, ty, None))?;
    let place = governor_here(alloc, around, &definition.associated_type)?;
    let value = ValueForm::Written(&definition.value);
    let form = Form::AValue(ValuePlace::AsSuch, value, Some(place));
    let sites = with_site(sites, around, form)?;
    Ok(sites)
}

/// The sites with the fields of a class.
///
/// Err: want of memory.
fn with_fields<'a>(
    sites: List<Site<'a>>,
    around: &Rc<Around<'a>>,
    class: &'a InformationObjectClass,
) -> Mem<List<Site<'a>>>
    ensures { IfOk result (λ more. shown_sites more ≡ shown_sites sites.entry ++ map (λ f. beside (shown_around around.now.value) (ClassField OfField f)) class.now.fields) }
{
    let mut sites = sites;
    let fields = class.fields.as_slice();
    for field in fields {
        let form = Form::ClassField(TypePlace::OfField, ClassFieldForm::Written(field));
        sites = with_site(sites, around, form)?;
    }
    Ok(sites)
}

/// The name of the class of an object set.
fn link_name<'a>(link: &'a Option<ClassLink>) -> Option<&'a Text>
    ensures { named_by (option_copied result) ≡ class_link_name link.now }
{
    match link {
        None => None,
        Some(ClassLink::ByName(name)) => Some(name),
        Some(ClassLink::ByReference(name, _)) => Some(name),
    }
}

/// The sites with the name of an object set's class, and the set.
///
/// Err: want of memory.
#[tactic(auto, using(asn_places_types::proofs::Adding::then_cons))]
fn with_named_set<'a>(
    names: &Names<'a>,
    sites: List<Site<'a>>,
    around: &Rc<Around<'a>>,
    class: &'a Text,
    set: &'a ObjectSet,
) -> Mem<List<Site<'a>>>
    ensures { IfOk result (λ more. shown_sites more ≡ shown_sites sites.entry ++ all_beside (shown_around around.now.value) (ClassName class.now ∷ AnObjectSet (class_in_scope names.now.definitions.now (shown_around around.now.value).scope class.now) set.now ∷ [])) }
{
    let sites = with_site(sites, around, Form::ClassName(class))?;
    let of_class = class_in_scope(names, scope_in(around), class.as_str());
    let form = Form::AnObjectSet(of_class, SetForm::Written(set));
    let sites = with_site(sites, around, form)?;
    Ok(sites)
}

/// The sites with an object set, where its class has a name.
///
/// Err: want of memory.
#[tactic(auto, using(crate::proofs::Beginning::set_unnamed, crate::proofs::Beginning::set_named))]
fn with_set<'a>(
    names: &Names<'a>,
    sites: List<Site<'a>>,
    around: &Rc<Around<'a>>,
    link: &'a Option<ClassLink>,
    set: &'a ObjectSet,
) -> Mem<List<Site<'a>>>
    ensures { IfOk result (λ more. shown_sites more ≡ shown_sites sites.entry ++ all_beside (shown_around around.now.value) (information_forms names.now.definitions.now (shown_around around.now.value).scope link.now (ObjectSet set.now))) }
{
    match link_name(link) {
        None => Ok(sites),
        Some(class) => {
            let sites = with_named_set(names, sites, around, class, set)?;
            Ok(sites)
        }
    }
}

/// The sites with the name of an object's class, and the object.
///
/// Err: want of memory.
#[tactic(auto, using(asn_places_types::proofs::Adding::then_cons))]
fn with_object<'a>(
    names: &Names<'a>,
    sites: List<Site<'a>>,
    around: &Rc<Around<'a>>,
    link: &'a Option<ClassLink>,
    object: &'a InformationObject,
) -> Mem<List<Site<'a>>>
    ensures { IfOk result (λ more. shown_sites more ≡ shown_sites sites.entry ++ all_beside (shown_around around.now.value) (information_forms names.now.definitions.now (shown_around around.now.value).scope link.now (Object object.now))) }
{
    let class = &object.class_name;
    let sites = with_site(sites, around, Form::ClassName(class))?;
    let of_class = class_in_scope(names, scope_in(around), class.as_str());
    let sites = with_site(sites, around, Form::AnObject(of_class, &object.fields))?;
    Ok(sites)
}

/// The sites with a class, an object or a set.
///
/// Err: want of memory.
#[tactic(auto, using(crate::proofs::Beginning::fields_beside))]
fn with_information<'a>(
    names: &Names<'a>,
    sites: List<Site<'a>>,
    around: &Rc<Around<'a>>,
    definition: &'a ToplevelInformationDefinition,
) -> Mem<List<Site<'a>>>
    ensures { IfOk result (λ more. shown_sites more ≡ shown_sites sites.entry ++ all_beside (shown_around around.now.value) (information_forms names.now.definitions.now (shown_around around.now.value).scope definition.now.class definition.now.value)) }
{
    match &definition.value {
        ASN1Information::ObjectClass(class) => {
            let sites = with_fields(sites, around, class)?;
            Ok(sites)
        }
        ASN1Information::ObjectSet(set) => with_set(names, sites, around, &definition.class, set),
        ASN1Information::Object(object) => {
            with_object(names, sites, around, &definition.class, object)
        }
    }
}

/// What a type definition begins with.
///
/// Err: want of memory.
fn of_type<'a>(alloc: Global, definition: &'a ToplevelTypeDefinition) -> Mem<List<Site<'a>>>
    ensures { IfOk result (λ first. shown_sites first ≡ begun_with definition.now.parameterization (type_forms definition.now)) }
{
    let template = &definition.parameterization;
    let around = around_own(alloc, template)?;
    let ty = TypeForm::Written(&definition.ty);
    let form = Form::AType(TypePlace::AtHead, ty, None);
    let sites = with_site(List::new(alloc), &around, form)?;
    let sites = with_dummies(sites, &around, dummies_of(template))?;
    Ok(sites)
}

/// What a value definition begins with.
///
/// Err: want of memory.
fn of_value<'a>(alloc: Global, definition: &'a ToplevelValueDefinition) -> Mem<List<Site<'a>>>
    ensures { IfOk result (λ first. shown_sites first ≡ begun_with definition.now.parameterization (value_forms (own_scope definition.now.parameterization) definition.now)) }
{
    let template = &definition.parameterization;
    let around = around_own(alloc, template)?;
    let sites = with_value(alloc, List::new(alloc), &around, definition)?;
    let sites = with_dummies(sites, &around, dummies_of(template))?;
    Ok(sites)
}

/// What the definition of a class, an object or a set begins with.
///
/// Err: want of memory.
#[tactic(auto, using(crate::proofs::Beginning::information_begun))]
fn of_information<'a>(
    alloc: Global,
    names: &Names<'a>,
    definition: &'a ToplevelInformationDefinition,
) -> Mem<List<Site<'a>>>
    ensures { IfOk result (λ first. shown_sites first ≡ begun_with definition.now.parameterization (information_forms names.now.definitions.now (own_scope definition.now.parameterization) definition.now.class definition.now.value)) }
{
    let template = &definition.parameterization;
    let around = around_own(alloc, template)?;
    let sites = with_information(names, List::new(alloc), &around, definition)?;
    let sites = with_dummies(sites, &around, dummies_of(template))?;
    Ok(sites)
}

/// What a definition begins with.
///
/// Err: want of memory.
fn first_sites<'a>(
    alloc: Global,
    names: &Names<'a>,
    definition: &'a ToplevelDefinition,
) -> Mem<List<Site<'a>>>
    ensures { IfOk result (λ first. shown_sites first ≡ first_sites names.now.definitions.now definition.now) }
{
    match definition {
        ToplevelDefinition::TypeDef(definition) => of_type(alloc, definition),
        ToplevelDefinition::Value(definition) => of_value(alloc, definition),
        ToplevelDefinition::Information(definition) => of_information(alloc, names, definition),
    }
}

/// The field of the built-in class by its name with its `&` (X.681 A.2).
#[tactic(auto, using(crate::proofs::Beginning::field_value, crate::proofs::Beginning::field_type, crate::proofs::Beginning::field_none))]
fn built_in_field<'a>(name: &str) -> Option<ClassFieldForm<'a>>
    ensures { option_map shown_field result ≡ field_of type_identifier name.now }
{
    if "&id" == name {
        return Some(ClassFieldForm::Identifier);
    }
    if "&Type" == name {
        return Some(ClassFieldForm::IdentifiedType);
    }
    None
}

/// The field of a class by its name with its `&`.
fn field_named<'a>(class: Class<'a>, name: &str) -> Option<ClassFieldForm<'a>>
    ensures { option_map shown_field result ≡ field_of (shown_class class.entry) name.now }
{
    match class {
        Class::TypeIdentifier => built_in_field(name),
        Class::Written(class) => match written_field(class, name) {
            None => None,
            Some(field) => Some(ClassFieldForm::Written(field)),
        },
    }
}

/// What a class's field begins with.
///
/// Err: want of memory.
fn of_field<'a>(alloc: Global, field: ClassFieldForm<'a>) -> Mem<List<Site<'a>>>
    ensures { IfOk result (λ first. shown_sites first ≡ outermost None (ClassField AtHeadOfField (shown_field field.entry)) ∷ []) }
{
    let around = outermost(alloc, Scope::Empty)?;
    let form = Form::ClassField(TypePlace::AtHeadOfField, field);
    let sites = with_site(List::new(alloc), &around, form)?;
    Ok(sites)
}

/// What the field of this name begins with, of the class of a name.
///
/// Err: want of memory.
#[tactic(auto, using(crate::proofs::Beginning::no_class, crate::proofs::Beginning::no_field, crate::proofs::Beginning::some_field))]
fn field_sites<'a>(alloc: Global, names: &Names<'a>, class: &str, name: &str) -> Mem<List<Site<'a>>>
    ensures { IfOk result (λ first. shown_sites first ≡ node_sites names.now.definitions.now (ToField class.now name.now)) }
{
    let Some(class) = names.class_named(class) else {
        return Ok(List::new(alloc));
    };
    let Some(field) = field_named(class, name) else {
        return Ok(List::new(alloc));
    };
    let sites = of_field(alloc, field)?;
    Ok(sites)
}

/// What a definition or a class's field begins with; nothing where there is none of the name.
///
/// Err: want of memory.
#[tactic(auto, using(crate::proofs::Beginning::no_definition, crate::proofs::Beginning::some_definition))]
pub fn node_sites<'a>(alloc: Global, names: &Names<'a>, node: Node<'_>) -> Mem<List<Site<'a>>>
    ensures { IfOk result (λ first. shown_sites first ≡ node_sites names.now.definitions.now (shown_node node.entry)) }
{
    match node {
        Node::ToDefinition(name) => match names.last_named(name) {
            None => Ok(List::new(alloc)),
            Some(definition) => first_sites(alloc, names, definition),
        },
        Node::ToField(class, name) => field_sites(alloc, names, class, name),
    }
}

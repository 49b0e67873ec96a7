//! Codes that have each form of the subset, by name.

/// Each begins with the thread that enters block 0 with null; its closure has no fields but the label's number.
pub const CASES: [(&str, &str); 22] = [
    (
        "constants",
        "const L0 = (e, a) => { const v0 = null; const v1 = true; const v2 = false; const v3 = 9223372036854775807n; const v4 = \"a\\\"\\\\\\n\\t~\"; const v5 = \"\"; const v6 = [a, v0, v1, v2, v3, v4, v5]; return send(\"home\", e, v6); };\n",
    ),
    (
        "fields",
        "const L0 = (e, a) => { const v0 = 5n; const v1 = [v0, a]; const v2 = [v1, v0]; const v3 = v2[0]; const v4 = v3[1]; const v5 = e[0]; const v6 = [v3, v4, v5]; return send(\"server\", e, v6); };\n",
    ),
    (
        "sums",
        "const L0 = (e, a) => { const v0 = 9223372036854775807n; const v1 = 1n; const v2 = BigInt.asIntN(64, v0 + v1); const v3 = BigInt.asIntN(64, v2 + v2); const v4 = BigInt.asIntN(64, v1 + v1); const v5 = [v2, v3, v4]; return send(\"panel\", e, v5); };\n",
    ),
    (
        "differences",
        "const L0 = (e, a) => { const v0 = 9223372036854775807n; const v1 = 2n; const v2 = 0n; const v3 = BigInt.asIntN(64, v2 - v0); const v4 = BigInt.asIntN(64, v3 - v1); const v5 = BigInt.asIntN(64, v1 - v0); const v6 = [v3, v4, v5]; return send(\"home\", e, v6); };\n",
    ),
    (
        "products",
        "const L0 = (e, a) => { const v0 = 4611686018427387904n; const v1 = 3n; const v2 = BigInt.asIntN(64, v0 * v1); const v3 = BigInt.asIntN(64, v2 * v2); const v4 = BigInt.asIntN(64, v1 * v1); const v5 = 0n; const v6 = BigInt.asIntN(64, v5 - v1); const v7 = BigInt.asIntN(64, v6 * v1); const v8 = [v2, v3, v4, v7]; return send(\"home\", e, v8); };\n",
    ),
    (
        "quotients",
        "const L0 = (e, a) => { const v0 = 7n; const v1 = 2n; const v2 = 0n; const v3 = BigInt.asIntN(64, v2 - v0); const v4 = BigInt.asIntN(64, v2 - v1); const v5 = BigInt.asIntN(64, v0 / v1); const v6 = BigInt.asIntN(64, v3 / v1); const v7 = BigInt.asIntN(64, v0 / v4); const v8 = BigInt.asIntN(64, v3 / v4); const v9 = [v5, v6, v7, v8]; return send(\"home\", e, v9); };\n",
    ),
    (
        "least",
        "const L0 = (e, a) => { const v0 = 9223372036854775807n; const v1 = 1n; const v2 = BigInt.asIntN(64, v0 + v1); const v3 = 0n; const v4 = BigInt.asIntN(64, v3 - v1); const v5 = BigInt.asIntN(64, v2 / v4); const v6 = String(v5); const v7 = [v5, v6]; return send(\"home\", e, v7); };\n",
    ),
    (
        "texts",
        "const L0 = (e, a) => { const v0 = \"eight by\"; const v1 = \"tes\"; const v2 = v0 + v1; const v3 = \"\"; const v4 = v3 + v3; const v5 = [v2, v4]; return send(\"home\", e, v5); };\n",
    ),
    (
        "decimals",
        "const L0 = (e, a) => { const v0 = 0n; const v1 = 120n; const v2 = BigInt.asIntN(64, v0 - v1); const v3 = String(v0); const v4 = String(v1); const v5 = String(v2); const v6 = [v3, v4, v5]; return send(\"home\", e, v6); };\n",
    ),
    (
        "same",
        "const L0 = (e, a) => { const v0 = 1n; const v1 = 2n; const v2 = BigInt.asIntN(64, v1 - v0); const v3 = v0 === v2; const v4 = v0 === v1; const v5 = \"ab\"; const v6 = \"a\"; const v7 = \"b\"; const v8 = v6 + v7; const v9 = v5 === v8; const v10 = v5 === v6; const v11 = [v3, v4, v9, v10]; return send(\"home\", e, v11); };\n",
    ),
    (
        "less",
        "const L0 = (e, a) => { const v0 = 9n; const v1 = 10n; const v2 = 0n; const v3 = BigInt.asIntN(64, v2 - v0); const v4 = v0 < v1; const v5 = v1 < v0; const v6 = v0 < v0; const v7 = v3 < v2; const v8 = [v4, v5, v6, v7]; return send(\"home\", e, v8); };\n",
    ),
    (
        "cells",
        "const L0 = (e, a) => { const v0 = 7n; const v1 = cell(v0); const v2 = cell(a); const v3 = load(v1); const v4 = \"new\"; const v5 = store(v1, v4); const v6 = load(v1); const v7 = [v1, v2, v3, v5, v6]; return send(\"home\", e, v7); };\n",
    ),
    (
        "threads",
        "const L0 = (e, a) => { const v0 = 1n; const v1 = 5n; const v2 = [v0, v1]; const v3 = spawn(v2); const v4 = [v0, v3]; const v5 = spawn(v4); return done(); };\nconst L1 = (e, a) => { return done(); };\n",
    ),
    (
        "taken",
        "const L0 = (e, a) => { const v0 = true; if (v0) { const v1 = 1n; return send(\"home\", e, v1); } else { const v1 = 2n; return send(\"server\", e, v1); } };\n",
    ),
    (
        "not taken",
        "const L0 = (e, a) => { const v0 = 1n; const v1 = v0 < v0; if (v1) { const v2 = \"then\"; return send(\"home\", e, v2); } else { const v2 = \"else\"; if (v1) { return done(); } else { const v3 = v2 + v2; return send(\"server\", e, v3); } } };\n",
    ),
    (
        "on",
        "const L0 = (e, a) => { const v0 = 3n; const v1 = \"free\"; const v2 = [v0, v1]; const v3 = 10n; return go(v2, v3); };\nconst L3 = (e, a) => { const v0 = 0n; const v1 = a === v0; if (v1) { const v2 = e[1]; return send(\"home\", e, v2); } else { const v2 = 1n; const v3 = BigInt.asIntN(64, a - v2); return go(e, v3); } };\n",
    ),
    (
        "says",
        "const L0 = (e, a) => { const v0 = \"hello\"; return ask(\"say\", v0, e); };\n",
    ),
    (
        "sets",
        "const L0 = (e, a) => { const v0 = \"id\"; const v1 = \"text\"; const v2 = [v0, v1]; return ask(\"set_text\", v2, e); };\n",
    ),
    (
        "gets",
        "const L0 = (e, a) => { const v0 = \"id\"; return ask(\"get_text\", v0, e); };\n",
    ),
    (
        "registers",
        "const L0 = (e, a) => { const v0 = \"id\"; const v1 = [v0, e]; return ask(\"on\", v1, e); };\n",
    ),
    (
        "shows",
        "const L0 = (e, a) => { const v0 = \"count\"; return ask(\"show\", v0, e); };\n",
    ),
    ("ends", "const L0 = (e, a) => { return done(); };\n"),
];
